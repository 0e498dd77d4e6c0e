// Where reading has stopped, and the fault there.
ghost use Rattle.std.specs.Prelude.{◌≡◌, length};
ghost use Rattle.units.specs.Units.{units};
ghost use Rattle.words.specs.Terminals.{unreadable};
ghost use Rattle.grammar.specs.Readers.{first_place};
ghost use Rattle.grammar.specs.Whole.{fault_from, cause_of};
ghost use Rattle.cursor.specs.Ahead.{short};
ghost use Rattle.cursor.specs.Reading.{rest, text_of, fault_of, is_none};

use super::super::ahead::{Ahead, short_text};
use super::super::pieces::Stop;
use super::Cursor;
use faults::{Cause, Fault};
use units::count;
use words::Slip;

// A function and no From, since neither type is this crate's own.
fn cause(slip: Slip) -> Cause
    ensures { result ≡ cause_of (unreadable slip) }
{
    match slip {
        Slip::BeginsNone => Cause::UnknownCharacter,
        Slip::NotClosed => Cause::StringNotClosed,
        Slip::TooLong => Cause::WordTooLong,
    }
}

fn units_read(text: &[u8]) -> u16
    ensures { result ≡ length (short (units text.now)) }
{
    count(short_text(text)) as u16
}

impl Cursor<'_> {
    // The place of the next word, 0 at the end.
    #[tactic(auto, unfolding(crate::specs::Reading::rest, crate::specs::Reading::text_of))]
    pub fn place(&self) -> u16
        ensures { result ≡ first_place (rest self.now) }
    {
        match self.ahead {
            Ahead::Word(p, _) => p.at,
            Ahead::Slip(_, at, _) => at,
            Ahead::End => 0,
        }
    }

    #[tactic(auto, unfolding(crate::specs::Reading::rest, crate::specs::Reading::text_of))]
    pub fn at_end(&self) -> bool
        ensures { result ≡ is_none (rest self.now) }
    {
        matches!(self.ahead, Ahead::End)
    }

    // The fault at a word without use, or at the end of the text.
    #[tactic(auto, unfolding(crate::specs::Reading::rest, crate::specs::Reading::text_of))]
    fn unexpected(&self) -> Fault
        ensures { result ≡ fault_from (length (text_of self.now)) (rest self.now) }
    {
        match self.ahead {
            Ahead::Word(p, _) => Fault::at(Cause::UnexpectedWord, p.at),
            Ahead::Slip(s, at, _) => Fault::at(cause(s), at),
            Ahead::End => Fault::at(Cause::UnexpectedWord, units_read(self.text)),
        }
    }

    // The fault where reading has stopped.
    pub fn fault(&self, stop: Stop) -> Fault
        ensures { result ≡ fault_of (length (text_of self.now)) stop (rest self.now) }
    {
        match stop {
            Stop::Useless => self.unexpected(),
            Stop::Past => Fault::at(Cause::OverLimit, self.place()),
        }
    }
}
