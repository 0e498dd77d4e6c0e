// How a claims list writes: its letters and escapes, its numbers and booleans, its texts as units, and what can be wrong with each.
// Letters become units, and numbers and booleans are read from units.
#![tactic(auto)]

mod letters;
mod mistakes;
mod numbers;
mod texts;

pub use letters::{escape_unit, hex_unit, is_blank};
pub use mistakes::Mistake;
pub use numbers::{boolean, signed, unsigned};
pub use texts::{UnitText, spell};
