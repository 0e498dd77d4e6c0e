// The rules of a rule text, read as the grammar derives them.
// A text is accepted exactly when it is derivable within the limits, and refused exactly where it stops.
#![tactic(auto)]

mod parses;
mod rules;
mod tree;

pub use parses::parse;
pub use rules::{begins_rule, rule};
pub use tree::{MAX_RULES, Rule, Rules};
