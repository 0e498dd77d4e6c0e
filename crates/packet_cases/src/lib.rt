#![tactic(auto)]

// The boundaries of the packet format, each run against check, the packet source and the writer.
// A crate of its own, since a crate with tests is proved twice.
#[cfg(test)]
mod accepted;
#[cfg(test)]
mod refused;
#[cfg(test)]
mod written;
