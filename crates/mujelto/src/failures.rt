// What ends a command early, and how it is told.
use std::alloc::AllocError;
use std::io;
use thiserror::Error;

// Each is told by whole lines, for the standard error.
#[derive(Debug, Drop, Error)]
pub enum Failure {
    // A fault that the output has told already.
    #[error("")]
    Refused,
    // A line to tell.
    #[error("{0}\n")]
    Line(String),
    // A line to tell, and then the usage.
    #[error("{0}\n{usage}", usage = USAGE)]
    Usage(String),
    #[error("mujelto: out of memory\n")]
    Memory(#[from(alloc)] AllocError),
    #[error("mujelto: {0}\n")]
    Output(#[from] io::Error),
}

pub const USAGE: &str =
    "usage: mujelto pack CLAIMS PACKET   makes a packet of a claims list, and shows it
       mujelto show PACKET          checks a packet, and lists its claims
       mujelto help                 prints this
";
