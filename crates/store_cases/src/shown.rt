// What the tests put into stores, and what they are answered.
use claims::{Claim, Value};
use faults::{Cause, Fault};
use store::Store;

// A claim that is told from others by a number.
pub fn numbered(n: u64) -> Claim {
    Claim {
        value: Value::Uint64(n),
        ..Claim::default()
    }
}

// The refusal of a store: at place 0, outside a step.
pub fn refused<T>(cause: Cause) -> Result<T, Fault> {
    Err(Fault::at(cause, 0))
}

// How many of 600 appends are granted.
pub fn granted<S: Store>(store: &mut S) -> usize {
    (0..600)
        .map(|n| store.append(numbered(n)))
        .filter(|r| r.is_ok())
        .count()
}
