// The patterns of conditions.
ghost use Rattle.std.specs.Prelude.{◌≡◌};
ghost use Rattle.units.specs.Units.{units};
ghost use Rattle.cursor.specs.Pieces.{word_of};
ghost use Rattle.conditions.specs.Shown.{oper_of, cond_of, conds_of};
ghost use Rattle.pattern.specs.Caused.{cause_of_pattern};
ghost use Rattle.checks.specs.Earliest.{Notes};
ghost use Rattle.checks.specs.Faults.{caused_at, side_faults, cond_faults, conds_faults};

use super::earliest::Earliest;
use conditions::{Cond, Conds, Oper};
use cursor::Piece;
use faults::{Cause, Fault};

// Why a word is no pattern, if it is none.
fn pattern_cause(text: &[u8], word: Piece) -> Option<Cause>
    ensures { result ≡ cause_of_pattern (word_of (units text.now) word).text }
{
    pattern::read(word.text(text)).err()
}

impl Earliest {
    fn note_pattern(&mut self, text: &[u8], word: Piece)
        ensures { Notes (caused_at (cause_of_pattern (word_of (units text.now) word).text) word.at) self.old self.new }
    {
        if let Some(cause) = pattern_cause(text, word) {
            self.note(Fault::at(cause, word.at));
        }
    }

    fn note_side(&mut self, text: &[u8], oper: Oper, word: Piece)
        ensures { Notes (side_faults (oper_of (units text.now) oper) (word_of (units text.now) word)) self.old self.new }
    {
        match oper {
            Oper::Equal | Oper::NotEqual => {}
            Oper::Matches | Oper::NotMatches => self.note_pattern(text, word),
        }
    }

    fn note_cond(&mut self, text: &[u8], cond: Cond<Piece>)
        ensures { Notes (cond_faults (cond_of (units text.now) cond)) self.old self.new }
    {
        match cond {
            Cond::Type(oper, word) => self.note_side(text, oper, word),
            Cond::Value(oper, word, type_oper, type_word) => {
                self.note_side(text, oper, word);
                self.note_side(text, type_oper, type_word);
            }
        }
    }

    pub fn note_conds(&mut self, text: &[u8], conds: &Conds)
        ensures { Notes (conds_faults (conds_of (units text.now) conds.now)) self.old self.new }
    {
        for cond in conds.iter() {
            self.note_cond(text, *cond);
        }
    }
}
