// The action of a rule as it is read, by places in the rule text.
// A quoted word is held as W and an identifier as R: both by their places in the text where they are read.
ghost use Rattle.std.specs.Prelude.{◌≡◌};
ghost use Rattle.actions.specs.declared.tree.Action.TheVariants as Action;

use cursor::Piece;

#[derive(Clone, Copy, PartialEq, Eq, Debug)]
pub enum Expr<W, R> {
    Literal(W),
    ValueType(W),
    TypeOf(R),
    ValueOf(R),
    ValueTypeOf(R),
}

// A new claim has a type, a value and a value type.
#[derive(Clone, Copy, PartialEq, Eq, Debug)]
pub enum Action<W, R> {
    Copy(R),
    New(Expr<W, R>, Expr<W, R>, Expr<W, R>),
}

// What an unused place of a list holds; no case of the enum stands without a word.
impl<W, R: Default> Default for Action<W, R> {
    ghost is_default = { λ a. (r : R) × R.is_default r × (a ≡ Action.Copy r) };

    fn default() -> Self {
        Action::Copy(R::default())
    }
}

// As they are read.
pub type ExprRead = Expr<Piece, Piece>;

pub type ActionRead = Action<Piece, Piece>;
