// A whole rule text.
ghost use Rattle.std.specs.Prelude.{◌≡◌};
ghost use Rattle.units.specs.Units.{units};
ghost use Rattle.grammar.specs.Exact.{Judged};
ghost use Rattle.grammar.specs.Whole as whole;
ghost use Rattle.cursor.specs.Ahead.{short};
ghost use Rattle.parser.specs.Parsed.{parsed_of};

use super::rules::rules;
use super::tree::Rules;
use cursor::{Cursor, Stop};
use faults::Fault;

// The rules of a text; or the fault at its first word without use, or at the first item past its limit.
pub fn parse(text: &[u8]) -> Result<Rules, Fault>
    ensures value { parsed_of (short (units text.now)) result ≡ whole.parse (short (units text.now)) }
    ensures exact { Judged (short (units text.now)) (parsed_of (short (units text.now)) result) }
{
    let mut cursor = Cursor::new(text);
    let stop = match rules(&mut cursor) {
        Ok(all) if cursor.at_end() => return Ok(all),
        Ok(_) => Stop::Useless,
        Err(stop) => stop,
    };
    Err(cursor.fault(stop))
}
