#![tactic(auto)]

// Rule texts run against the parser: what is accepted, and where the others are refused.
// A crate of its own, since a crate with tests is proved twice.
#[cfg(test)]
mod accepted;
#[cfg(test)]
mod refused;
#[cfg(test)]
mod wide;
