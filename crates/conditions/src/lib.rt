// The conditions of a rule, read from a cursor: one function for each production, each equal to its definition.
#![tactic(auto)]

mod conds;
mod many;
mod selections;
mod tree;

pub use selections::conditions;
pub use tree::{Cond, Conds, Oper, Selection, Selections};
