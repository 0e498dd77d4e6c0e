// The faults of a rule: of its selections in their order, then of its action.
ghost use Rattle.std.specs.Prelude.{◌≡◌, [], ◌++◌, take};
ghost use Rattle.std.specs.Option.{option_map};
ghost use Rattle.units.specs.Units.{units};
ghost use Rattle.cursor.specs.Pieces.{word_of};
ghost use Rattle.conditions.specs.Shown.{selection_of};
ghost use Rattle.actions.specs.Shown.{expr_of, action_of};
ghost use Rattle.parser.specs.Shown.{rule_of};
ghost use Rattle.checks.specs.Earliest.{earliest_from, known_faults, Notes, Earliest as EarliestOf};
ghost use Rattle.checks.specs.Faults.{name_faults, selection_faults, selections_faults, reference_faults, expr_faults, action_faults, rule_faults};
ghost use Rattle.checks.specs.Names.{shown};

use super::earliest::Earliest;
use super::names::Names;
use actions::{Action, ActionRead, Expr, ExprRead};
use conditions::Selection;
use cursor::Piece;
use faults::{Cause, Fault};
use parser::Rule;

impl Earliest {
    // An identifier that one of so many earlier selections has is repeated.
    fn note_name(&mut self, names: &Names<'_>, earlier: usize, own: Option<Piece>)
        ensures { Notes (name_faults (take earlier (shown names.now)) (option_map (word_of (units names.now.text.now)) own)) self.old self.new }
    {
        let Some(name) = own else {
            return;
        };
        if names.number_among(earlier, name).is_some() {
            self.note(Fault::at(Cause::RepeatedIdentifier, name.at));
        }
    }

    fn note_selection(&mut self, names: &Names<'_>, earlier: usize, selection: &Selection)
        ensures { Notes (selection_faults (take earlier (shown names.now)) (selection_of (units names.now.text.now) selection.now)) self.old self.new }
    {
        self.note_name(names, earlier, selection.name);
        self.note_conds(names.text, &selection.conds);
    }

    fn note_selections(&mut self, names: &Names<'_>)
        ensures { Notes (selections_faults [] (shown names.now)) self.old self.new }
    {
        for (i, selection) in names.selections.iter().enumerate() {
            self.note_selection(names, i, selection);
        }
    }

    // An identifier of the action that no selection has is unknown.
    fn note_reference(&mut self, names: &Names<'_>, name: Piece)
        ensures { Notes (reference_faults (shown names.now) (word_of (units names.now.text.now) name)) self.old self.new }
    {
        if names.number_of(name).is_none() {
            self.note(Fault::at(Cause::UnknownIdentifier, name.at));
        }
    }

    fn note_expr(&mut self, names: &Names<'_>, expr: ExprRead)
        ensures { Notes (expr_faults (shown names.now) (expr_of (units names.now.text.now) expr)) self.old self.new }
    {
        match expr {
            Expr::Literal(_) | Expr::ValueType(_) => {}
            Expr::TypeOf(name) | Expr::ValueOf(name) | Expr::ValueTypeOf(name) => {
                self.note_reference(names, name);
            }
        }
    }

    fn note_action(&mut self, names: &Names<'_>, action: ActionRead)
        ensures { Notes (action_faults (shown names.now) (action_of (units names.now.text.now) action)) self.old self.new }
    {
        match action {
            Action::Copy(name) => self.note_reference(names, name),
            Action::New(claim_type, value, value_type) => {
                self.note_expr(names, claim_type);
                self.note_expr(names, value);
                self.note_expr(names, value_type);
            }
        }
    }
}

// The earliest of the fault known so far and the faults of the rule.
pub fn rule_fault(text: &[u8], rule: &Rule, known: Option<Fault>) -> Option<Fault>
    ensures value { result ≡ earliest_from known (rule_faults (rule_of (units text.now) rule.now)) }
    ensures earliest { EarliestOf (known_faults known ++ rule_faults (rule_of (units text.now) rule.now)) result }
{
    let names = Names {
        text,
        selections: &rule.selections,
    };
    let mut earliest = Earliest { known };
    earliest.note_selections(&names);
    earliest.note_action(&names, rule.action);
    earliest.known
}
