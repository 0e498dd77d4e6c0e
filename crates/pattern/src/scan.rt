// Is a pattern well formed, however deep its brackets nest? One pass, with a count of the brackets that are open.
ghost use Rattle.std.specs.Prelude.{◌≡◌, ◌+◌, ◌^◌, ◌<◌};
ghost use Rattle.units.specs.Units.{units};
ghost use Rattle.pattern.specs.declared.scan.State.TheVariants.{Fresh};
ghost use Rattle.pattern.specs.Formed.{class_of, free as freely, after as afterwards, done, formed, Small};

use super::signs::*;
use units::Units;

// Where the pass stands: behind an atom, which a repeat may follow; where none may; behind a backslash; behind the
// closing anchor.
#[derive(Clone, Copy, PartialEq, Eq)]
pub enum State {
    Fresh,
    Behind,
    Escaped,
    Closed,
}

#[derive(Clone, Copy, PartialEq, Eq)]
pub enum Class {
    Opens,
    Closes,
    Parts,
    Escapes,
    Repeats,
    Ends,
    Strays,
    Takes,
}

// What a unit does where it is not escaped.
fn class_of(u: u16) -> Class
    ensures { result ≡ class_of u }
{
    match u {
        OPEN => Class::Opens,
        CLOSE => Class::Closes,
        BAR => Class::Parts,
        ESCAPE => Class::Escapes,
        STAR | PLUS | QUERY => Class::Repeats,
        TAIL => Class::Ends,
        0x5B | 0x5D | HEAD => Class::Strays,
        _ => Class::Takes,
    }
}

// Where the pass stands, and how many brackets are open.
#[derive(Clone, Copy)]
pub struct Pass {
    pub state: State,
    pub depth: usize,
}

impl Pass {
    // A unit that is not escaped, with an atom before it or not.
    fn free(self, behind: bool, c: Class) -> Option<Pass>
        requires { self.depth + 1 < 2 ^ 64 }
        ensures value { result ≡ freely behind self.depth c }
        ensures small { Small self.depth result }
    {
        let (state, depth) = match c {
            Class::Opens => (State::Fresh, self.depth + 1),
            Class::Closes if self.depth > 0 => (State::Behind, self.depth - 1),
            Class::Parts => (State::Fresh, self.depth),
            Class::Escapes => (State::Escaped, self.depth),
            Class::Repeats if behind => (State::Fresh, self.depth),
            Class::Ends if self.depth == 0 => (State::Closed, 0),
            Class::Takes => (State::Behind, self.depth),
            _ => return None,
        };
        Some(Pass { state, depth })
    }

    // One unit on, or none if it may not stand there.
    fn after(self, u: u16) -> Option<Pass>
        requires { self.depth + 1 < 2 ^ 64 }
        ensures value { result ≡ afterwards self.state self.depth u }
        ensures small { Small self.depth result }
    {
        match self.state {
            State::Fresh => self.free(false, class_of(u)),
            State::Behind => self.free(true, class_of(u)),
            State::Escaped if special(u) => Some(Pass {
                state: State::Behind,
                ..self
            }),
            _ => None,
        }
    }

    // May the pattern end here?
    fn complete(self) -> bool
        ensures { result ≡ done self.state self.depth }
    {
        match self.state {
            State::Escaped => false,
            State::Closed => true,
            _ => self.depth == 0,
        }
    }
}

// Do the units spell a choice, perhaps with the closing anchor, at any depth?
#[tactic(auto, using(crate::proofs::Looks::half))]
pub fn well_formed(body: &[u8]) -> bool
    ensures { result ≡ formed Fresh 0 (units body.now) }
{
    let mut pass = Pass {
        state: State::Fresh,
        depth: 0,
    };
    for u in Units::of(body) {
        let Some(next) = pass.after(u) else {
            return false;
        };
        pass = next;
    }
    pass.complete()
}
