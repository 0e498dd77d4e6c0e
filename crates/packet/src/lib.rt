// The claim packet, version 1: bytes are checked once, and then read as a source of claims.
// Accepted are exactly the bytes that are the packet of some claims within the limits.
// A refusal tells the first fault, claim by claim, at the claim's first byte.
#![tactic(auto)]

mod claims_in;
mod fields;
mod packets;

pub use packets::{Packet, check};
