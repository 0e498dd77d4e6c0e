// Loading a rule text.
ghost use Rattle.std.specs.Prelude.{◌≡◌, [], length, IfOk, IfErr};
ghost use Rattle.rules.specs.Buffer.{buffer_of};
ghost use Rattle.rules.specs.Judged.{judged};
ghost use Rattle.rules.specs.Loaded.{verdict_of, parts_of};

use super::super::sink::Sink;
use super::Rules;
use faults::Fault;
use parts::Part;

// A fault, the buffer that was lent, in which every part is blank, and the rules of the empty text over it.
// The buffer goes back with the fault, since a contract says nothing of a lent slice beside a bare `Err`.
// Whoever goes on after a refusal goes on with rules that were checked: these.
#[derive(Clone, Copy, PartialEq, Eq, Debug)]
pub struct Refused<'a> {
    pub fault: Fault,
    pub rules: Rules<'a>,
    pub parts: &'a [Part],
}

// Judges a rule text and lays its rules out in the buffer; a text that is refused leaves every part blank.
pub fn load<'a>(text: &'a [u8], parts: &'a mut [Part]) -> Result<Rules<'a>, Refused<'a>>
    ensures verdict { judged text.now (length parts.old) ≡ verdict_of text.now result }
    ensures parts { parts_of result ≡ buffer_of (length parts.old) (judged text.now (length parts.old)) }
    ensures text { IfOk result (λ rules. rules.text.now ≡ text.now) }
    ensures empty { IfErr result (λ refused. refused.rules.text.now ≡ []) }
    ensures whole { IfErr result (λ refused. refused.rules.parts.now ≡ refused.parts.now) }
{
    let mut sink = Sink::new(text, parts);
    match sink.judge() {
        Ok(count) => Ok(Rules {
            text,
            parts: sink.into_parts(),
            count,
        }),
        Err(fault) => {
            sink.blank();
            let parts = sink.into_parts();
            Err(Refused {
                fault,
                rules: Rules {
                    text: b"",
                    parts,
                    count: 0,
                },
                parts,
            })
        }
    }
}
