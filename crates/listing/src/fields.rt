// The fields of a line: a bare word, or a quoted text with escapes.
ghost use Rattle.std.specs.Prelude.{◌≡◌, ◌<◌, ◌≤◌, ◌++◌, true, length, vec_len, IfOk, IfSome};
ghost use Rattle.units.specs.Form.{well_formed};
ghost use Rattle.units.specs.Units.{units};
ghost use Rattle.listing.specs.Fields.{bare};

use super::mistakes::Stop;
use notation::{Mistake, UnitText, escape_unit, hex_unit, is_blank, spell};
use std::alloc::Global;
use units::is_well_formed;

// What a field spells, and the place on its line where it begins.
#[derive(Drop)]
pub struct Field {
    text: UnitText,
    at: usize,
    pub ghost short: { vec_len text.bytes ≤ 510 },
    pub ghost formed: { well_formed (units text.bytes.items) ≡ true },
}

impl Field {
    pub fn text(&self) -> &UnitText
        ensures { result.now ≡ self.now.text }
    {
        &self.text
    }

    // The mistake, told of this field.
    pub fn stop(&self, mistake: Mistake) -> Stop {
        Stop::At(mistake, self.at)
    }
}

// The letters of a line that are still to be read, and how many the line has.
#[derive(Clone, Copy)]
pub struct Line<'a> {
    rest: &'a [char],
    size: usize,
    ghost within: { length rest.now ≤ size },
}

fn is_bare(c: char) -> bool
    ensures { result ≡ bare c }
{
    !is_blank(c) && c != '"'
}

impl<'a> Line<'a> {
    pub fn of(letters: &'a [char]) -> Line<'a>
        ensures { result.rest.now ≡ letters.now }
    {
        Line {
            rest: letters,
            size: letters.len(),
        }
    }

    // How many letters stand before the rest.
    pub fn place(&self) -> usize {
        self.size - self.rest.len()
    }

    pub fn first(&self) -> Option<char> {
        self.rest.first().copied()
    }

    fn next(&mut self) -> Option<char>
        ensures { IfSome result (λ c. length self.new.rest.now < length self.old.rest.now) }
    {
        let (first, rest) = self.rest.split_first()?;
        self.rest = rest;
        Some(*first)
    }

    // The letters up to the first that does not belong.
    fn run<F: Fn(char) -> bool>(&mut self, belongs: F) -> &'a [char]
        requires { F.IsAlwaysCallable belongs }
        ensures { self.old.rest.now ≡ result.now ++ self.new.rest.now }
    {
        let end = self.rest.iter().position(|c| !belongs(*c));
        let (run, rest) = self.rest.split_at(end.unwrap_or(self.rest.len()));
        self.rest = rest;
        run
    }

    pub fn skip_blanks(&mut self)
        ensures { length self.new.rest.now ≤ length self.old.rest.now }
    {
        // A function of another crate has no proof here as a value: hence the closure.
        self.run(|c| is_blank(c));
    }

    // The unit of an escape, behind its backslash.
    fn escape(&mut self) -> Option<u16>
        ensures { length self.new.rest.now ≤ length self.old.rest.now }
    {
        let (unit, rest) = match self.rest {
            ['u', a, b, c, d, rest @ ..] => (hex_unit(*a, *b, *c, *d)?, rest),
            [letter, rest @ ..] => (escape_unit(*letter)?, rest),
            [] => return None,
        };
        self.rest = rest;
        Some(unit)
    }

    // The quoted text whose opening mark is the first letter.
    fn quoted(&mut self, heap: Global) -> Result<UnitText, Stop> {
        let open = self.place();
        let _mark = self.next();
        let mut text = UnitText::new(heap);
        loop {
            let at = self.place();
            match self.next().ok_or(Stop::At(Mistake::TextNotClosed, open))? {
                '"' => return Ok(text),
                '\\' => {
                    let escape = self.escape().ok_or(Stop::At(Mistake::BadEscape, at))?;
                    text.push_unit(escape)?;
                }
                letter => text.push_char(letter)?,
            }
        }
    }

    // The field that begins here, with a blank or the end of the line after it.
    pub fn field(&mut self, heap: Global) -> Result<Field, Stop> {
        let at = self.place();
        let text = if self.first() == Some('"') {
            self.quoted(heap)?
        } else {
            spell(heap, self.run(is_bare))?
        };
        if self.first().is_some_and(|c| !is_blank(c)) {
            return Err(Stop::At(Mistake::NoBlankAfterField, self.place()));
        }
        if text.bytes().len() > 510 {
            return Err(Stop::At(Mistake::TextTooLong, at));
        }
        if !is_well_formed(text.bytes()) {
            return Err(Stop::At(Mistake::IllFormedText, at));
        }
        Ok(Field { text, at })
    }

    // The field behind the blanks here, if the line has one.
    pub fn next_field(&mut self, heap: Global, missing: Mistake) -> Result<Field, Stop> {
        self.skip_blanks();
        if self.rest.is_empty() {
            return Err(Stop::At(missing, self.place()));
        }
        self.field(heap)
    }
}
