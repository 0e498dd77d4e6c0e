// The conditions of a selection, one function for each production, so a choice between two is a function that only chooses.
ghost use Rattle.std.specs.Prelude.{◌≡◌};
ghost use Rattle.grammar.specs.Parse as G;
ghost use Rattle.grammar.specs.Tree as T;
ghost use Rattle.grammar.specs.Readers.{next};
ghost use Rattle.cursor.specs.Pieces.{word_of};
ghost use Rattle.cursor.specs.Reading.{Parses, rest};
ghost use Rattle.conditions.specs.Shown.{oper_of, cond_of, conds_of, half_of};

use super::many::{Item, many};
use super::tree::{Cond, Conds, Oper};
use cursor::{Cursor, Piece, Stop};
use words::Terminal;

fn literal_expr(cursor: &mut Cursor<'_>) -> Result<Piece, Stop>
    ensures { Parses G.LiteralExpr word_of cursor.old result cursor.new }
{
    if cursor.sees(&[Terminal::Literal]) {
        cursor.expect(Terminal::Literal)
    } else {
        cursor.value_type_literal()
    }
}

fn cond_oper(cursor: &mut Cursor<'_>) -> Result<Oper, Stop>
    ensures { Parses G.CondOper oper_of cursor.old result cursor.new }
{
    cursor.expect_as(&[
        (Terminal::Equal, Oper::Equal),
        (Terminal::NotEqual, Oper::NotEqual),
        (Terminal::Matches, Oper::Matches),
        (Terminal::NotMatches, Oper::NotMatches),
    ])
}

fn type_cond(cursor: &mut Cursor<'_>) -> Result<Cond<Piece>, Stop>
    ensures { Parses G.TypeCond cond_of cursor.old result cursor.new }
{
    cursor.expect(Terminal::KeyType)?;
    let o = cond_oper(cursor)?;
    let l = literal_expr(cursor)?;
    Ok(Cond::Type(o, l))
}

// This and the next are a production each, and differ in the key and in the reader of the right side.
fn val_cond(cursor: &mut Cursor<'_>) -> Result<(Oper, Piece), Stop>
    ensures { Parses G.ValCond half_of cursor.old result cursor.new }
{
    cursor.expect(Terminal::KeyValue)?;
    let o = cond_oper(cursor)?;
    let l = literal_expr(cursor)?;
    Ok((o, l))
}

fn val_type_cond(cursor: &mut Cursor<'_>) -> Result<(Oper, Piece), Stop>
    ensures { Parses G.ValTypeCond half_of cursor.old result cursor.new }
{
    cursor.expect(Terminal::KeyValueType)?;
    let o = cond_oper(cursor)?;
    let l = cursor.value_type_literal()?;
    Ok((o, l))
}

// Each order is a production of its own: one body with a choice inside costs the prover four times as much.
fn value_first(cursor: &mut Cursor<'_>) -> Result<Cond<Piece>, Stop>
    ensures { Parses G.read_value_first cond_of cursor.old result cursor.new }
{
    let (o, l) = val_cond(cursor)?;
    cursor.expect(Terminal::Comma)?;
    let (p, m) = val_type_cond(cursor)?;
    Ok(Cond::Value(o, l, p, m))
}

fn value_type_first(cursor: &mut Cursor<'_>) -> Result<Cond<Piece>, Stop>
    ensures { Parses G.read_value_type_first cond_of cursor.old result cursor.new }
{
    let (p, m) = val_type_cond(cursor)?;
    cursor.expect(Terminal::Comma)?;
    let (o, l) = val_cond(cursor)?;
    Ok(Cond::Value(o, l, p, m))
}

fn value_cond(cursor: &mut Cursor<'_>) -> Result<Cond<Piece>, Stop>
    ensures { Parses G.ValueCond cond_of cursor.old result cursor.new }
{
    if cursor.sees(&[Terminal::KeyValue]) {
        value_first(cursor)
    } else {
        value_type_first(cursor)
    }
}

fn cond(cursor: &mut Cursor<'_>) -> Result<Cond<Piece>, Stop>
    ensures { Parses G.ACond cond_of cursor.old result cursor.new }
{
    if cursor.sees(&[Terminal::KeyValue, Terminal::KeyValueType]) {
        value_cond(cursor)
    } else {
        type_cond(cursor)
    }
}

// How a condition begins.
const CONDS_BEGIN: [Terminal; 3] = [
    Terminal::KeyValue,
    Terminal::KeyValueType,
    Terminal::KeyType,
];

fn sees_cond(cursor: &Cursor<'_>) -> bool
    ensures { result ≡ next G.conds_begin (rest cursor.now) }
{
    cursor.sees(&CONDS_BEGIN)
}

impl Item for Cond<Piece> {
    ghost Said = { T.Cond };

    ghost reader = { G.ACond };

    ghost shown = { cond_of };

    fn read(cursor: &mut Cursor<'_>) -> Result<Cond<Piece>, Stop> {
        cond(cursor)
    }
}

fn cond_list(cursor: &mut Cursor<'_>) -> Result<Conds, Stop>
    ensures { Parses G.CondList conds_of cursor.old result cursor.new }
{
    many(cursor, Terminal::Comma, &CONDS_BEGIN)
}

pub fn opt_cond_list(cursor: &mut Cursor<'_>) -> Result<Conds, Stop>
    ensures { Parses G.OptCondList conds_of cursor.old result cursor.new }
{
    if sees_cond(cursor) {
        cond_list(cursor)
    } else {
        Ok(Conds::new())
    }
}
