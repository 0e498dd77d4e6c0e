// A rule text read word by word: the next word is asked for, taken, or told as the fault at which reading stops.
// What is taken is held by places in the text, so that it is a plain value.
#![tactic(auto)]

mod ahead;
mod cursor;
mod pieces;

pub use cursor::Cursor;
pub use pieces::{Piece, Stop};
