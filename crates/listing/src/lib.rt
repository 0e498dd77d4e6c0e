// The claims list that a person writes: one claim a line, read into claim records and the text that holds their texts.
// Letters become fields, and a line becomes a claim; how letters, numbers and texts are written is of the crate notation.
// A mistake is told by its line and column.
#![tactic(auto)]

mod fields;
mod lists;
mod mistakes;
#[cfg(test)]
mod tests;

pub use lists::{ClaimsList, read};
pub use mistakes::{ListError, Misplaced};
pub use notation::Mistake;
