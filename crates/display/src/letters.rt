// Characters, one by one, as they are shown.
ghost use Rattle.std.specs.Prelude.{◌≡◌, ◌++◌, OnOk, length, string_bytes};
ghost use Rattle.std.specs.Char.Utf16.{decode_utf16_units};
ghost use Rattle.std.specs.Iterator.{at_most};
ghost use Rattle.units.specs.Units.{units};
ghost use Rattle.display.specs.Letters.{hidden, plain, escape, FirstLetter, IsEnded, units_left};

use notation::is_blank;
use std::alloc::AllocError;
use std::char::DecodeUtf16;
use units::Units;

// Would the character be invisible or turn the line? Then an escape stands for it.
pub fn is_hidden(c: char) -> bool
    ensures { result ≡ hidden c }
{
    matches!(
        c,
        '\0'..='\u{1F}'
            | '\u{7F}'..='\u{9F}'
            | '\u{200E}'..='\u{200F}'
            | '\u{2028}'..='\u{202E}'
            | '\u{2066}'..='\u{2069}'
            | '\u{FEFF}'
    )
}

// Does the character mean itself in a bare word?
pub fn is_plain(c: char) -> bool
    ensures { result ≡ plain c }
{
    !is_hidden(c) && !is_blank(c) && !matches!(c, '"' | '\\' | '#')
}

// The characters of a text, and each unit that is half of a pair alone: what the library's decoder gives, said of the text's units.
// The decoder looks a unit ahead; `ended` says that nothing is left where it has seen the end.
#[derive(Drop)]
pub struct Letters<'a> {
    units: DecodeUtf16<Units<'a>>,
    pub ghost ended: { IsEnded (decode_utf16_units units) },
}

impl<'a> Letters<'a> {
    pub fn of(text: &'a [u8]) -> Letters<'a>
        ensures { units_left (decode_utf16_units result.units) ≡ units text.now }
    {
        Letters {
            units: char::decode_utf16(Units::of(text)),
        }
    }
}

impl<'a> Iterator for Letters<'a> {
    type Item = Result<char, u16>;

    ghost next_gives = { λ s r t. FirstLetter (units_left (decode_utf16_units s.units)) r (units_left (decode_utf16_units t.units)) };

    ghost remaining = { λ s. at_most (length (units_left (decode_utf16_units s.units))) };

    fn next(&mut self) -> Option<Result<char, u16>> {
        let letter = self.units.next()?;
        Some(letter.map_err(|half| half.unpaired_surrogate()))
    }
}

// A unit as the escape with four hex digits.
fn push_escape(out: &mut String, unit: u16) -> Result<(), AllocError>
    ensures { OnOk result (string_bytes out.new ≡ string_bytes out.old ++ escape unit) }
{
    write!(out, "\\u{unit:04X}")
}

// A character as it stands between quotation marks.
fn push_char(out: &mut String, c: char) -> Result<(), AllocError> {
    match c {
        '"' => out.push_str("\\\""),
        '\\' => out.push_str("\\\\"),
        '\t' => out.push_str("\\t"),
        '\n' => out.push_str("\\n"),
        _ if is_hidden(c) => push_escape(out, c as u16),
        _ => out.push(c),
    }
}

// A letter of a text as it stands between quotation marks.
pub fn push_letter(out: &mut String, letter: Result<char, u16>) -> Result<(), AllocError> {
    match letter {
        Ok(c) => push_char(out, c),
        Err(half) => push_escape(out, half),
    }
}
