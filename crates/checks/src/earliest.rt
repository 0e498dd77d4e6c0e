// The earliest of the faults that were noted.
ghost use Rattle.std.specs.Prelude.{◌≡◌, Some};
ghost use Rattle.checks.specs.Earliest.{sooner, earlier_of};

use faults::Fault;

// By place, and at one place by number.
fn is_sooner(g: Fault, f: Fault) -> bool
    ensures { result ≡ sooner g f }
{
    (g.place, g.cause.number()) < (f.place, f.cause.number())
}

// None while no fault is known.
#[derive(Clone, Copy)]
pub struct Earliest {
    pub known: Option<Fault>,
}

impl Earliest {
    // The known fault stays unless the new one comes before it.
    pub fn note(&mut self, fault: Fault)
        ensures { self.new.known ≡ Some (earlier_of self.old.known fault) }
    {
        if self.known.is_none_or(|known| is_sooner(fault, known)) {
            self.known = Some(fault);
        }
    }
}
