// The selections of a rule, one function for each production, so a choice between two is a function that only chooses.
ghost use Rattle.grammar.specs.Parse as G;
ghost use Rattle.grammar.specs.Tree as T;
ghost use Rattle.cursor.specs.Reading.{Parses};
ghost use Rattle.conditions.specs.Shown.{conds_of, selection_of, selections_of};

use super::conds::opt_cond_list;
use super::many::{Item, many};
use super::tree::{Conds, Selection, Selections};
use cursor::{Cursor, Stop};
use words::Terminal;

fn sel_condition_body(cursor: &mut Cursor<'_>) -> Result<Conds, Stop>
    ensures { Parses G.SelConditionBody conds_of cursor.old result cursor.new }
{
    cursor.expect(Terminal::OpenSquare)?;
    let conds = opt_cond_list(cursor)?;
    cursor.expect(Terminal::CloseSquare)?;
    Ok(conds)
}

fn unnamed(cursor: &mut Cursor<'_>) -> Result<Selection, Stop>
    ensures { Parses G.unnamed selection_of cursor.old result cursor.new }
{
    let conds = sel_condition_body(cursor)?;
    Ok(Selection { name: None, conds })
}

fn named(cursor: &mut Cursor<'_>) -> Result<Selection, Stop>
    ensures { Parses G.named selection_of cursor.old result cursor.new }
{
    let i = cursor.expect(Terminal::Identifier)?;
    cursor.expect(Terminal::Colon)?;
    let conds = sel_condition_body(cursor)?;
    Ok(Selection {
        name: Some(i),
        conds,
    })
}

fn sel_condition(cursor: &mut Cursor<'_>) -> Result<Selection, Stop>
    ensures { Parses G.SelCondition selection_of cursor.old result cursor.new }
{
    if cursor.sees(&[Terminal::OpenSquare]) {
        unnamed(cursor)
    } else {
        named(cursor)
    }
}

impl Item for Selection {
    ghost Said = { T.Selection };

    ghost reader = { G.SelCondition };

    ghost shown = { selection_of };

    fn read(cursor: &mut Cursor<'_>) -> Result<Selection, Stop> {
        sel_condition(cursor)
    }
}

// How a selection begins.
const SELECTIONS_BEGIN: [Terminal; 2] = [Terminal::OpenSquare, Terminal::Identifier];

fn sel_condition_list(cursor: &mut Cursor<'_>) -> Result<Selections, Stop>
    ensures { Parses G.SelConditionList selections_of cursor.old result cursor.new }
{
    many(cursor, Terminal::And, &SELECTIONS_BEGIN)
}

pub fn conditions(cursor: &mut Cursor<'_>) -> Result<Selections, Stop>
    ensures { Parses G.Conditions selections_of cursor.old result cursor.new }
{
    if cursor.sees(&SELECTIONS_BEGIN) {
        sel_condition_list(cursor)
    } else {
        Ok(Selections::new())
    }
}
