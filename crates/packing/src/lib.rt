// A claims list as a packet, and a packet as it is written back: what the program does between its files.
// A list is read, and its records are written as a packet.
// An accepted packet is written again, and compared with itself.
#![tactic(auto)]

mod packs;
mod rewrites;
#[cfg(test)]
mod tests;

pub use packs::{PackError, pack};
pub use rewrites::is_written_back;
