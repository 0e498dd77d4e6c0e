// The rules of a text, read one by one: each is checked and laid out before the next.
ghost use Rattle.std.specs.Prelude.{◌≡◌, ◌≤◌, length};
ghost use Rattle.units.specs.Units.{units};
ghost use Rattle.grammar.specs.Parse as G;
ghost use Rattle.grammar.specs.Whole as whole;
ghost use Rattle.cursor.specs.Reading.{rest, text_of};
ghost use Rattle.rules.specs.Read.{Ends, Reads, told_of};

use super::sink::Sink;
use checks::rule_fault;
use cursor::{Cursor, Stop};
use faults::Fault;
use parser::{MAX_RULES, begins_rule, rule};

// How many rules there are, unless a fault of them is known.
fn told(fault: Option<Fault>, rules: u16) -> Result<u16, Fault>
    ensures { result ≡ told_of fault rules }
{
    fault.map_or(Ok(rules), Err)
}

impl<'a> Sink<'a> {
    // The rules up to the first word that begins none: where reading stops, or else their number or their earliest fault.
    // The loop of the parser's `rules`, but each rule is checked and laid out before the next, so that no list of rules has to be kept.
    fn read_rules(&mut self, cursor: &mut Cursor<'a>) -> Result<Result<u16, Fault>, Stop>
        requires { text_of cursor.old ≡ units self.old.text.now }
        ensures reads { Ends (G.RuleSet (rest cursor.old)) (rest cursor.new) self.old self.new result }
        ensures text { text_of cursor.new ≡ text_of cursor.old }
    {
        let mut fault = None;
        // The count of the loop is what is answered: how many rules were read.
        for i in 0..MAX_RULES as u16 {
            if !begins_rule(cursor) {
                return Ok(told(fault, i));
            }
            let r = rule(cursor)?;
            fault = rule_fault(self.text, &r, fault);
            self.put_rule(&r);
        }
        if begins_rule(cursor) {
            Err(Stop::Past)
        } else {
            Ok(told(fault, MAX_RULES as u16))
        }
    }

    // The rules of the whole text: their number, or the fault at which reading stops, or else their earliest fault.
    pub fn read_text(&mut self) -> Result<u16, Fault>
        requires { length self.old.text.now ≤ 32768 }
        ensures { Reads (whole.parse (units self.old.text.now)) self.old self.new result }
    {
        let mut cursor = Cursor::new(self.text);
        match self.read_rules(&mut cursor) {
            Ok(rules) if cursor.at_end() => rules,
            Ok(_) => Err(cursor.fault(Stop::Useless)),
            Err(stop) => Err(cursor.fault(stop)),
        }
    }
}
