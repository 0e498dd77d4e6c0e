// The parts of a rule as it was read.
ghost use Rattle.std.specs.Prelude.{◌≡◌, [], ◌∷◌};
ghost use Rattle.units.specs.Units.{units};
ghost use Rattle.cursor.specs.Pieces.{word_of};
ghost use Rattle.conditions.specs.Shown.{cond_of, conds_of, selection_of, selections_of};
ghost use Rattle.parts.specs.declared.Part.TheVariants as part;
ghost use Rattle.parts.specs.Laid.{lay_quoted, lay_cond, lay_conds, lay_selections, lay_reference, lay_expr, lay_action, lay_rule};
ghost use Rattle.actions.specs.Shown.{expr_of, action_of};
ghost use Rattle.parser.specs.Shown.{rule_of};
ghost use Rattle.checks.specs.Names.{shown};
ghost use Rattle.rules.specs.Held.{Put};

use super::sink::Sink;
use actions::{Action, ActionRead, Expr, ExprRead};
use checks::Names;
use conditions::{Cond, Conds, Selection, Selections};
use cursor::Piece;
use parser::Rule;
use parts::{Part, Quoted, Reference};
use units::count;

fn quoted(text: &[u8], word: Piece) -> Quoted
    ensures { result ≡ lay_quoted (word_of (units text.now) word) }
{
    Quoted {
        at: word.at,
        len: count(word.text(text)) as u16,
    }
}

fn cond(text: &[u8], cond: Cond<Piece>) -> Cond<Quoted>
    ensures { result ≡ lay_cond (cond_of (units text.now) cond) }
{
    match cond {
        Cond::Type(oper, word) => Cond::Type(oper, quoted(text, word)),
        Cond::Value(oper, word, type_oper, type_word) => {
            let value = quoted(text, word);
            Cond::Value(oper, value, type_oper, quoted(text, type_word))
        }
    }
}

fn reference(names: &Names<'_>, name: Piece) -> Reference
    ensures { result ≡ lay_reference (shown names.now) (word_of (units names.now.text.now) name) }
{
    Reference {
        at: name.at,
        selection: names.number_of(name).unwrap_or(0),
    }
}

fn expr(names: &Names<'_>, expr: ExprRead) -> Expr<Quoted, Reference>
    ensures { result ≡ lay_expr (shown names.now) (expr_of (units names.now.text.now) expr) }
{
    match expr {
        Expr::Literal(word) => Expr::Literal(quoted(names.text, word)),
        Expr::ValueType(word) => Expr::ValueType(quoted(names.text, word)),
        Expr::TypeOf(name) => Expr::TypeOf(reference(names, name)),
        Expr::ValueOf(name) => Expr::ValueOf(reference(names, name)),
        Expr::ValueTypeOf(name) => Expr::ValueTypeOf(reference(names, name)),
    }
}

fn action(names: &Names<'_>, action: ActionRead) -> Action<Quoted, Reference>
    ensures { result ≡ lay_action (shown names.now) (action_of (units names.now.text.now) action) }
{
    match action {
        Action::Copy(name) => Action::Copy(reference(names, name)),
        Action::New(claim_type, value, value_type) => Action::New(
            expr(names, claim_type),
            expr(names, value),
            expr(names, value_type),
        ),
    }
}

impl Sink<'_> {
    fn put_cond(&mut self, asked: Cond<Piece>)
        ensures { Put (part.Condition (lay_cond (cond_of (units self.old.text.now) asked)) ∷ []) self.old self.new }
    {
        self.put(Part::Condition(cond(self.text, asked)));
    }

    fn put_conds(&mut self, conds: &Conds)
        ensures { Put (lay_conds (conds_of (units self.old.text.now) conds.now)) self.old self.new }
    {
        for cond in conds.iter() {
            self.put_cond(*cond);
        }
    }

    fn put_selection(&mut self, selection: &Selection)
        ensures { Put (lay_selections (selection_of (units self.old.text.now) selection.now ∷ [])) self.old self.new }
    {
        self.put(Part::Selection);
        self.put_conds(&selection.conds);
    }

    fn put_selections(&mut self, selections: &Selections)
        ensures { Put (lay_selections (selections_of (units self.old.text.now) selections.now)) self.old self.new }
    {
        for selection in selections.iter() {
            self.put_selection(selection);
        }
    }

    pub fn put_rule(&mut self, rule: &Rule)
        ensures { Put (lay_rule (rule_of (units self.old.text.now) rule.now)) self.old self.new }
    {
        let names = Names {
            text: self.text,
            selections: &rule.selections,
        };
        let does = action(&names, rule.action);
        self.put(Part::Rule(rule.at, does));
        self.put_selections(&rule.selections);
    }
}
