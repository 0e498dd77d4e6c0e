// A store that another crate adds, and the boundaries of every store as tests.
// The store stands on the trait alone: nothing elsewhere knows of it.
// A crate of its own, since a crate with tests is proved twice.
#![tactic(auto)]

mod fixed;

pub use fixed::Fixed;

#[cfg(test)]
mod overlaid;
#[cfg(test)]
mod rounds;
#[cfg(test)]
mod shown;
#[cfg(test)]
mod tabled;
