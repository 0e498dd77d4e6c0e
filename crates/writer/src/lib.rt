// The claims of any source, read through the rule text and the packet, written as a packet.
// What is written reads back as the claims; an accepted packet is written back byte for byte.
// A refusal writes nothing, and bytes past the packet stay as they were.
#![tactic(auto)]

mod bodies;
mod fields;
mod fits;
mod shown;
mod writes;

pub use fits::is_writable;
pub use writes::{rewrite, write};
