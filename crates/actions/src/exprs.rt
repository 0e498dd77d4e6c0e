// The right sides of assignments, one function for each production, so a choice between two is a function that only chooses.
ghost use Rattle.grammar.specs.Parse as G;
ghost use Rattle.cursor.specs.Pieces.{word_of};
ghost use Rattle.cursor.specs.Reading.{Parses, text_of};
ghost use Rattle.actions.specs.Shown.{expr_of};

use super::tree::{Expr, ExprRead};
use cursor::{Cursor, Piece, Stop};
use words::Terminal;

fn property(cursor: &mut Cursor<'_>, i: Piece) -> Result<ExprRead, Stop>
    ensures { Parses (G.property (word_of (text_of cursor.old) i)) expr_of cursor.old result cursor.new }
{
    cursor.expect_as(&[
        (Terminal::KeyType, Expr::TypeOf(i)),
        (Terminal::KeyValue, Expr::ValueOf(i)),
        (Terminal::KeyValueType, Expr::ValueTypeOf(i)),
    ])
}

fn reference(cursor: &mut Cursor<'_>) -> Result<ExprRead, Stop>
    ensures { Parses G.reference expr_of cursor.old result cursor.new }
{
    let i = cursor.expect(Terminal::Identifier)?;
    cursor.expect(Terminal::Dot)?;
    property(cursor, i)
}

pub fn expression(cursor: &mut Cursor<'_>) -> Result<ExprRead, Stop>
    ensures { Parses G.Expression expr_of cursor.old result cursor.new }
{
    if cursor.sees(&[Terminal::Identifier]) {
        reference(cursor)
    } else if cursor.sees(&[Terminal::Literal]) {
        cursor.expect(Terminal::Literal).map(Expr::Literal)
    } else {
        cursor.value_type_literal().map(Expr::ValueType)
    }
}

pub fn value_type_expr(cursor: &mut Cursor<'_>) -> Result<ExprRead, Stop>
    ensures { Parses G.ValueTypeExpr expr_of cursor.old result cursor.new }
{
    if cursor.sees(&[Terminal::Identifier]) {
        let i = cursor.expect(Terminal::Identifier)?;
        cursor.expect(Terminal::Dot)?;
        cursor.expect(Terminal::KeyValueType)?;
        Ok(Expr::ValueTypeOf(i))
    } else {
        cursor.value_type_literal().map(Expr::ValueType)
    }
}
