// Lines for people: refusals in words, texts in the notation of the claims list, and a table of claims.
// A unit becomes a character or an escape, a text a bare word or a quoted text, a claim a row.
// What is shown of a claim can be pasted into a claims list.
#![tactic(auto)]

mod letters;
mod messages;
mod tables;
#[cfg(test)]
mod tests;
mod texts;

pub use messages::{accepted, misplaced, refused, size_line};
pub use tables::table;
pub use texts::shown;
