//! The bytes of files.
use crate::endings::Ending;
use std::io::Read;
use std::rt::Files;
use std::{fs, io};

/// What a file that isn't read comes to.
fn unread(fault: &io::Error) -> Ending {
    match fault.kind() {
        io::ErrorKind::OutOfMemory => Ending::Memory,
        _ => Ending::ReadFault,
    }
}

/// Reads a file to its end, or until it has given so many bytes.
pub fn read_file<R: Files + AllocGlobal>(rt: &R, path: &str, most: u64) -> Result<Vec<u8>, Ending> {
    let file = fs::open(rt, path).map_err(|fault| unread(&fault))?;
    let mut bytes = Vec::new(rt.alloc());
    file.take(most)
        .read_to_end(&mut bytes)
        .map_err(|fault| unread(&fault))?;
    Ok(bytes)
}
