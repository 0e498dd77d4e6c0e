// A rule text loaded: judged in the order of its causes, and its rules laid out as parts in a buffer that is lent.
// A text is read rule by rule; each is checked and its parts are put before the next.
// Checked rules are a value that only loading makes; on a refusal every part is blank.
#![tactic(auto)]

mod checked;
mod judge;
mod lay;
mod read;
mod sink;

pub use checked::Rules;
pub use checked::load::{Refused, load};
