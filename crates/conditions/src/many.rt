// A list of items with a limit, the same for conditions and for selections.
ghost use Rattle.std.specs.Prelude.{ℕ, List};
ghost use Rattle.grammar.specs.Readers.{Reads, many};
ghost use Rattle.cursor.specs.Reading.{Parses};
ghost use Rattle.conditions.specs.Many.{all_of, ListFitsInMemory};

use cursor::{Cursor, Stop};
use list::Few;
use words::Terminal;

// What stands in such a list.
pub trait Item: Copy + Default {
    // What the grammar says that it is, the production that gives it, and how it is shown through the units of the text.
    ghost Said: { Type 0 };

    ghost reader: { Reads Said };

    ghost shown: { List ℕ → Self → Said };

    fn read(cursor: &mut Cursor<'_>) -> Result<Self, Stop>
        ensures { Parses reader shown cursor.old result cursor.new };
}

// One item or more, each but the first behind a word of the terminal `between`; each begins with one of `begins`.
pub fn many<T: Item, const N: usize>(
    cursor: &mut Cursor<'_>,
    between: Terminal,
    begins: &[Terminal],
) -> Result<Few<T, N>, Stop>
    requires fits { ListFitsInMemory T.row N.row }
    ensures { Parses (many between begins.now T.reader N) (all_of T.shown) cursor.old result cursor.new }
{
    let mut all = Few::new();
    for _ in 0..N {
        all.push(T::read(cursor)?);
        if !cursor.sees(&[between]) {
            return Ok(all);
        }
        cursor.expect(between)?;
    }
    if cursor.sees(begins) {
        Err(Stop::Past)
    } else {
        Err(Stop::Useless)
    }
}
