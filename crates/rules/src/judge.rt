// A text judged in the order of its causes, while its parts are put.
ghost use Rattle.std.specs.Prelude.{[]};
ghost use Rattle.rules.specs.Held.{Holds};
ghost use Rattle.rules.specs.Outcome.{Judges};

use super::sink::Sink;
use faults::{Cause, Fault};
use units::first_ill_formed;

impl Sink<'_> {
    // The number of rules, or the first fault.
    pub fn judge(&mut self) -> Result<u16, Fault>
        requires { Holds [] self.old }
        ensures { Judges self.old.text.now self.old self.new result }
    {
        if self.text.len() > 32768 {
            return Err(Fault::at(Cause::TextTooLong, 0));
        }
        if self.text.len() % 2 == 1 {
            return Err(Fault::at(Cause::OddByteCount, 0));
        }
        if let Some(i) = first_ill_formed(self.text) {
            return Err(Fault::at(Cause::IllFormedRuleText, i as u16));
        }
        let rules = self.read_text()?;
        if self.is_short() {
            return Err(Fault::at(Cause::PartsTooShort, 0));
        }
        Ok(rules)
    }
}
