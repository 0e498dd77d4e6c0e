// Patterns: the units of a pattern are read into an automaton once, and any number of texts matched against it.
// A pattern is accepted exactly when its units spell a tree within the limits; it spells at most one.
// A text matches exactly when some run of its neighbouring units belongs to that tree, as the anchors allow.
#![tactic(auto)]

ghost use Rattle.std.specs.Prelude.{◌≡◌, ℕ, Bool, List, is_some, unwrap_or, Decides};
ghost use Rattle.units.specs.Units.{units};
ghost use Rattle.automaton.specs.Language.{Tree, Matches};
ghost use Rattle.automaton.specs.Places.{Stands};
ghost use Rattle.pattern.specs.Caused.{body, cause_of, cause_of_pattern, pattern_answer};
ghost use Rattle.pattern.specs.Examples.{Worked, Computed};
ghost use Rattle.pattern.specs.Judged.{Accepted, Reads, Decided};
ghost use Rattle.pattern.specs.Signs.{begins};
ghost use Rattle.pattern.specs.Parsed.{pattern_match};

mod reader;
mod scan;
mod signs;

use automaton::{Atom, Automaton, Place};
use faults::Cause;
use reader::Reader;
use units::count;

// A pattern that was accepted.
#[derive(Clone, Copy)]
pub struct Pattern {
    automaton: Automaton,
}

// What stands behind the opening anchor, where the pattern has one.
fn behind_head(pattern: &[u8]) -> Option<&[u8]>
    ensures head { is_some result ≡ begins 94 (units pattern.now) }
    ensures body { units (unwrap_or result pattern.entry).now ≡ body (units pattern.now) }
{
    let [0, b'^', body @ ..] = pattern else {
        return None;
    };
    Some(body)
}

// Reads a pattern. Whether it is well formed is judged first, at any depth, so that only a well-formed one can be
// over a limit.
pub fn read(pattern: &[u8]) -> Result<Pattern, Cause>
    ensures exact { Reads (units pattern.now) result }
    ensures value { cause_of result ≡ cause_of_pattern (units pattern.now) }
{
    let behind = behind_head(pattern);
    let body = behind.unwrap_or(pattern);
    if !scan::well_formed(body) {
        return Err(Cause::MalformedPattern);
    }
    // what no atom has taken yet is a dot with nothing behind it
    let mut reader = Reader {
        pattern: body,
        at: 0,
        count: 0,
        places: [Place::new(Atom::Any, 0); 60],
    };
    let whole = reader.choice(8).ok_or(Cause::PatternOverLimit)?;
    Ok(Pattern {
        automaton: Automaton {
            head: behind.is_some(),
            tail: reader.at < count(body),
            nullable: whole.null,
            firsts: whole.first,
            lasts: whole.last,
            count: reader.count,
            places: reader.places,
        },
    })
}

// Does the text match the pattern?
pub fn matches(pattern: &Pattern, text: &[u8]) -> bool
    ensures exact { (head tail : Bool) (t : Tree) → Stands pattern.now.automaton head tail t → Decides result (Matches head tail t (units text.now)) }
    ensures value { (us : List ℕ) → Accepted us pattern.now → result ≡ pattern_match us (units text.now) }
{
    automaton::matches(&pattern.automaton, text)
}

// Reads the pattern and matches the text against it.
pub fn decide(pattern: &[u8], text: &[u8]) -> Result<bool, Cause>
    ensures exact { Decided (units pattern.now) (units text.now) result }
    ensures value { result ≡ pattern_answer (units pattern.now) (units text.now) }
{
    let p = read(pattern)?;
    Ok(matches(&p, text))
}

// The worked patterns as a theorem: `^(a|bc)*$` spells its tree, BCA matches it, and ab does not; others are computed.
pub fn worked_examples_stand()
    ensures worked { Worked }
    ensures computed { Computed }
{}
