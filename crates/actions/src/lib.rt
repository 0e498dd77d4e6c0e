// The action of a rule, read from a cursor: one function for each production, each equal to its definition.
#![tactic(auto)]

mod exprs;
mod issues;
mod tree;

pub use issues::rule_action;
pub use tree::{Action, ActionRead, Expr, ExprRead};
