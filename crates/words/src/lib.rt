// The words of a rule text, read one at a time from a place on.
// A word is a terminal of the rule language, and a name or a string borrows its units from the text.
// Units that are no word are told by why, at their first unit.
#![tactic(auto)]

mod places;
mod reads;
mod signs;
mod tables;
mod terminals;
mod tokens;
mod units_of;

pub use reads::read;
pub use terminals::{Slip, Terminal};
pub use tokens::{Lexeme, Token};
