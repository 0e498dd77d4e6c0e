// The next word from a place on.
ghost use Rattle.units.specs.Units.{units};
ghost use Rattle.words.specs.Tokens.{Reads};

use super::places::{Place, past};
use super::tokens::Lexeme;
use super::units_of::is_blank;
use units::count;

// The next word from a place on, or none where no word is left.
pub fn read(text: &[u8], start: usize) -> Option<Lexeme<'_>>
    ensures { Reads (units text.now) start result }
{
    if start >= count(text) {
        return None;
    }
    let at = past(text, start, is_blank);
    if at >= count(text) {
        return None;
    }
    Some(Place { text, at }.word())
}
