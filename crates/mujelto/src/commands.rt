// The commands.
use super::failures::{Failure, USAGE};
use super::files::{read_list, read_packet, write_packet};
use claims::{Source, Texts};
use display::{accepted, misplaced, refused, size_line, table};
use faults::Fault;
use packet::{Packet, check};
use packing::{PackError, is_written_back, pack};
use std::alloc::AllocError;
use std::rt::Files;

// The line of a refusal on the standard output.
fn refusal(rt: &(impl Print + AllocGlobal), fault: Fault) -> Result<(), Failure> {
    rt.println(refused(rt.alloc(), fault)?)?;
    Err(Failure::Refused)
}

// Lists the claims, and writes the packet back.
fn show_claims(rt: &(impl Print + AllocGlobal), packet: &Packet) -> Result<(), Failure> {
    let heap = rt.alloc();
    let bytes = packet.bytes();
    let texts = Texts {
        rules: b"",
        packet: bytes,
    };
    rt.println(accepted(heap, packet.count())?)?;
    rt.print(table(heap, packet, &texts)?)?;
    if is_written_back(heap, packet)? {
        rt.println(size_line(heap, bytes.len())?)?;
    }
    Ok(())
}

fn show(rt: &(impl Files + Print + AllocGlobal), packet: &str) -> Result<(), Failure> {
    let bytes = read_packet(rt, packet)?;
    match check(bytes.as_slice()) {
        Ok(packet) => show_claims(rt, &packet),
        Err(fault) => refusal(rt, fault),
    }
}

fn pack_file(
    rt: &(impl Files + Print + AllocGlobal),
    list: &str,
    packet: &str,
) -> Result<(), Failure> {
    let heap = rt.alloc();
    let text = read_list(rt, list)?;
    match pack(heap, text.as_slice()) {
        Ok(bytes) => {
            write_packet(rt, packet, bytes.as_slice())?;
            show(rt, packet)
        }
        Err(PackError::Memory) => Err(Failure::Memory(AllocError)),
        Err(PackError::Line(found)) => Err(Failure::Line(misplaced(heap, list, found)?)),
        Err(PackError::Refused(fault)) => refusal(rt, fault),
    }
}

// The words fit no command: is it the first, or those after it?
fn misused(rt: &impl AllocGlobal, command: &str) -> Result<(), Failure> {
    let line = match command {
        "pack" | "show" | "help" => format!(in rt.alloc();
            "mujelto: wrong number of words after '{command}'"
        )?,
        _ => format!(in rt.alloc(); "mujelto: unknown command '{command}'")?,
    };
    Err(Failure::Usage(line))
}

pub fn run(rt: &(impl Files + Print + AllocGlobal), words: &[String]) -> Result<(), Failure> {
    match words {
        [] => Err(Failure::Usage(format!(in rt.alloc(); "mujelto: a command is missing")?)),
        [command] if command.as_str() == "help" => Ok(rt.print(USAGE)?),
        [command, packet] if command.as_str() == "show" => show(rt, packet.as_str()),
        [command, list, packet] if command.as_str() == "pack" => pack_file(
            rt,
            list.as_str(),
            packet.as_str(),
        ),
        [command, ..] => misused(rt, command.as_str()),
    }
}
