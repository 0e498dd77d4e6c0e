// The checks of a rule that the grammar derives: its identifiers and its patterns.
// Every fault of the rule is judged, and the one of the earliest place is told; at one place, that of the smaller number.
#![tactic(auto)]

mod earliest;
mod names;
mod patterns;
mod rules;

pub use names::Names;
pub use rules::rule_fault;
