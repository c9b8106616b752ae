//! The text that a program reads.

use crate::failure::Failure;
use std::fs;
use std::io::Read;

/// The text of a file, or of standard input where none is named. A byte that is no text stands as U+FFFD, so that the
/// line that has it is the one that cannot be read.
pub fn read_text(rt: &HostRuntime, file: Option<String>) -> Result<String, Failure> {
    let heap = rt.alloc();
    let bytes = match file {
        Some(path) => fs::read(rt, path.as_str()).map_err(|error| Failure::File(path, error))?,
        None => {
            let mut bytes = Vec::new(heap);
            rt.stdin().read_to_end(&mut bytes)?;
            bytes
        }
    };
    Ok(String::from_utf8_lossy(heap, bytes.as_slice())?)
}
