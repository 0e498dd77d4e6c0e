// The action of a rule, one function for each production, so a choice between two is a function that only chooses.
ghost use Rattle.grammar.specs.Parse as G;
ghost use Rattle.cursor.specs.Reading.{Parses};
ghost use Rattle.actions.specs.Assigned.{assigned};
ghost use Rattle.actions.specs.Shown.{expr_of, two_of, action_of};

use super::exprs::{expression, value_type_expr};
use super::tree::{Action, ActionRead, ExprRead};
use cursor::{Cursor, Stop};
use words::Terminal;

// A key, and the expression that is assigned to it.
fn assigned(cursor: &mut Cursor<'_>, key: Terminal) -> Result<ExprRead, Stop>
    ensures { Parses (assigned key) expr_of cursor.old result cursor.new }
{
    cursor.expect(key)?;
    cursor.expect(Terminal::Assign)?;
    expression(cursor)
}

fn claim_type_assign(cursor: &mut Cursor<'_>) -> Result<ExprRead, Stop>
    ensures { Parses G.ClaimTypeAssign expr_of cursor.old result cursor.new }
{
    assigned(cursor, Terminal::KeyType)
}

fn claim_val_assign(cursor: &mut Cursor<'_>) -> Result<ExprRead, Stop>
    ensures { Parses G.ClaimValAssign expr_of cursor.old result cursor.new }
{
    assigned(cursor, Terminal::KeyValue)
}

fn claim_val_type_assign(cursor: &mut Cursor<'_>) -> Result<ExprRead, Stop>
    ensures { Parses G.ClaimValTypeAssign expr_of cursor.old result cursor.new }
{
    cursor.expect(Terminal::KeyValueType)?;
    cursor.expect(Terminal::Assign)?;
    value_type_expr(cursor)
}

// Each order is a production of its own: one body with a choice inside costs the prover four times as much.
fn value_first(cursor: &mut Cursor<'_>) -> Result<(ExprRead, ExprRead), Stop>
    ensures { Parses G.assigns_value_first two_of cursor.old result cursor.new }
{
    let v = claim_val_assign(cursor)?;
    cursor.expect(Terminal::Comma)?;
    let y = claim_val_type_assign(cursor)?;
    Ok((v, y))
}

fn value_type_first(cursor: &mut Cursor<'_>) -> Result<(ExprRead, ExprRead), Stop>
    ensures { Parses G.assigns_value_type_first two_of cursor.old result cursor.new }
{
    let y = claim_val_type_assign(cursor)?;
    cursor.expect(Terminal::Comma)?;
    let v = claim_val_assign(cursor)?;
    Ok((v, y))
}

fn claim_value_assign(cursor: &mut Cursor<'_>) -> Result<(ExprRead, ExprRead), Stop>
    ensures { Parses G.ClaimValueAssign two_of cursor.old result cursor.new }
{
    if cursor.sees(&[Terminal::KeyValue]) {
        value_first(cursor)
    } else {
        value_type_first(cursor)
    }
}

// Here too each order is a production of its own.
fn type_first(cursor: &mut Cursor<'_>) -> Result<ActionRead, Stop>
    ensures { Parses G.assigns_type_first action_of cursor.old result cursor.new }
{
    let n = claim_type_assign(cursor)?;
    cursor.expect(Terminal::Comma)?;
    let (v, y) = claim_value_assign(cursor)?;
    Ok(Action::New(n, v, y))
}

fn type_last(cursor: &mut Cursor<'_>) -> Result<ActionRead, Stop>
    ensures { Parses G.assigns_type_last action_of cursor.old result cursor.new }
{
    let (v, y) = claim_value_assign(cursor)?;
    cursor.expect(Terminal::Comma)?;
    let n = claim_type_assign(cursor)?;
    Ok(Action::New(n, v, y))
}

fn claim_new(cursor: &mut Cursor<'_>) -> Result<ActionRead, Stop>
    ensures { Parses G.ClaimNew action_of cursor.old result cursor.new }
{
    if cursor.sees(&[Terminal::KeyType]) {
        type_first(cursor)
    } else {
        type_last(cursor)
    }
}

fn claim_copy(cursor: &mut Cursor<'_>) -> Result<ActionRead, Stop>
    ensures { Parses G.ClaimCopy action_of cursor.old result cursor.new }
{
    cursor.expect(Terminal::KeyClaim)?;
    cursor.expect(Terminal::Assign)?;
    cursor.expect(Terminal::Identifier).map(Action::Copy)
}

fn issue_params(cursor: &mut Cursor<'_>) -> Result<ActionRead, Stop>
    ensures { Parses G.IssueParams action_of cursor.old result cursor.new }
{
    if cursor.sees(&[Terminal::KeyClaim]) {
        claim_copy(cursor)
    } else {
        claim_new(cursor)
    }
}

pub fn rule_action(cursor: &mut Cursor<'_>) -> Result<ActionRead, Stop>
    ensures { Parses G.RuleAction action_of cursor.old result cursor.new }
{
    cursor.expect(Terminal::KeyIssue)?;
    cursor.expect(Terminal::OpenRound)?;
    let action = issue_params(cursor)?;
    cursor.expect(Terminal::CloseRound)?;
    Ok(action)
}
