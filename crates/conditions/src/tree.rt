// The conditions of a rule as they are read, by places in the rule text.

ghost use Rattle.std.specs.Prelude.{◌≡◌};
ghost use Rattle.conditions.specs.declared.tree.Cond.TheVariants as Cond;
ghost use Rattle.conditions.specs.declared.tree.Oper.TheVariants as Oper;

use cursor::Piece;
use list::Few;

#[derive(Clone, Copy, PartialEq, Eq, Debug)]
pub enum Oper {
    Equal,
    NotEqual,
    Matches,
    NotMatches,
}

// The second pair of a condition on a value is that on its value type.
// A word is held as W: by its places in the text where it is read.
#[derive(Clone, Copy, PartialEq, Eq, Debug)]
pub enum Cond<W> {
    Type(Oper, W),
    Value(Oper, W, Oper, W),
}

// What an unused place of a list holds; no case of the enum stands without a word.
impl<W: Default> Default for Cond<W> {
    ghost is_default = { λ c. (w : W) × W.is_default w × (c ≡ Cond.Type Oper.Equal w) };

    fn default() -> Self {
        Cond::Type(Oper::Equal, W::default())
    }
}

// At most four conditions.
pub type Conds = Few<Cond<Piece>, 4>;

#[derive(Clone, Copy, Default)]
pub struct Selection {
    pub name: Option<Piece>,
    pub conds: Conds,
}

// At most four selections.
pub type Selections = Few<Selection, 4>;
