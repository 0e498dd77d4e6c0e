// One list for every kind of element, over a buffer that is lent: its first `len` slots are its items.
// A push is refused exactly when the buffer is full, a cut exactly when it would lengthen.
// The slots past the items are kept by every call but `blank`. `Few` is such a list with slots of its own, which can be copied.
#![tactic(auto)]

mod few;
mod lists;

pub use few::Few;
pub use lists::{Full, List, TooFew};
