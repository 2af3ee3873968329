//! The files of orders.

use std::rt::Files;
use std::{fs, io};

/// What the files of an order have; an empty text stands for a file that isn't read.
#[derive(Drop)]
pub struct Contents {
    /// A case or a trace.
    pub input: String,
    /// What it is compared with.
    pub stored: String,
}

/// What the file of this name and ending has. Where there is no ending, there is no file.
pub fn content_of(
    rt: &(impl Files + AllocGlobal),
    name: &str,
    ending: &str,
) -> Result<String, io::Error> {
    if ending.is_empty() {
        return Ok(String::new(rt.alloc()));
    }
    let path = format!(in rt.alloc(); "{name}{ending}")?;
    fs::read_to_string(rt, path.as_str())
}

/// What the files of this name and these endings have.
pub fn contents_of(
    rt: &(impl Files + AllocGlobal),
    name: &str,
    input_ending: &str,
    stored_ending: &str,
) -> Result<Contents, io::Error> {
    let input = content_of(rt, name, input_ending)?;
    let stored = content_of(rt, name, stored_ending)?;
    Ok(Contents { input, stored })
}
