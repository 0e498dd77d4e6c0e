// The program mujelto: packs a claims list, and shows a packet.
// The words of the command line choose a command; a command reads its files, calls the libraries and prints.
// A refusal and every other failure end with status 1.
#![tactic(auto)]

mod commands;
mod failures;
mod files;

use failures::Failure;
use std::env;
use std::process::ExitCode;

// Runs the command that the words after the program's name choose.
fn run(rt: &HostRuntime) -> Result<(), Failure> {
    let words: Vec<String> = env::args(rt)?.skip(1).collect(rt.alloc())?;
    commands::run(rt, words.as_slice())
}

fn main(rt: HostRuntime) -> ExitCode {
    match run(&rt) {
        Ok(()) => ExitCode::SUCCESS,
        Err(failure) => {
            let _ = eprint!(rt; "{failure}");
            ExitCode::FAILURE
        }
    }
}
