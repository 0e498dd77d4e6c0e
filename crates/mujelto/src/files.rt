// The files that the commands read and write.
use super::failures::Failure;
use std::alloc::Global;
use std::io::Read;
use std::rt::Files;
use std::{fs, io};

// One byte more than a packet has at most: what is longer is refused by its front as by the whole.
const PACKET_FRONT: u64 = 32769;

const LIST_LIMIT: u64 = 1048576;

fn named(heap: Global, path: &str, error: io::Error) -> Failure {
    format!(in heap; "{path}: {error}").map_or_else(Failure::from, Failure::Line)
}

fn front(rt: &(impl Files + AllocGlobal), path: &str, limit: u64) -> io::Result<Vec<u8>> {
    let mut bytes = Vec::new(rt.alloc());
    fs::open(rt, path)?.take(limit).read_to_end(&mut bytes)?;
    Ok(bytes)
}

// The front of a file, or a line that names the file.
fn named_front(
    rt: &(impl Files + AllocGlobal),
    path: &str,
    limit: u64,
) -> Result<Vec<u8>, Failure> {
    front(rt, path, limit).map_err(|error| named(rt.alloc(), path, error))
}

pub fn read_packet(rt: &(impl Files + AllocGlobal), path: &str) -> Result<Vec<u8>, Failure> {
    named_front(rt, path, PACKET_FRONT)
}

// A claims list of at most 1 MiB.
pub fn read_list(rt: &(impl Files + AllocGlobal), path: &str) -> Result<Vec<u8>, Failure> {
    let bytes = named_front(rt, path, LIST_LIMIT + 1)?;
    if bytes.len() as u64 > LIST_LIMIT {
        return Err(Failure::Line(format!(in rt.alloc();
            "{path}: a claims list has at most {LIST_LIMIT} bytes"
        )?));
    }
    Ok(bytes)
}

pub fn write_packet(
    rt: &(impl Files + AllocGlobal),
    path: &str,
    bytes: &[u8],
) -> Result<(), Failure> {
    fs::write(rt, path, bytes).map_err(|error| named(rt.alloc(), path, error))
}
