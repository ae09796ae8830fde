// Texts that are wanted.
use pp_text::OutOfMemory;
use std::alloc::{AllocError, Global};

/// A part of a text.
#[derive(Clone, Copy)]
pub enum Part<'a> {
    /// Just these bytes.
    Text(&'a [u8]),
    /// The bytes of an instance from one offset up to another: each tells where it stands.
    Bytes(u64, u64),
}

/// These parts, one behind the other.
pub fn written(alloc: Global, parts: &[Part<'_>]) -> Result<Vec<u8>, OutOfMemory> {
    let mut text = Vec::new(alloc);
    for part in parts {
        put(*part, &mut text)?;
    }
    Ok(text)
}

fn put(part: Part<'_>, text: &mut Vec<u8>) -> Result<(), AllocError> {
    match part {
        Part::Text(bytes) => text.extend_from_slice(bytes),
        Part::Bytes(from, to) => count_up(from, to, text),
    }
}

fn count_up(from: u64, to: u64, text: &mut Vec<u8>) -> Result<(), AllocError> {
    for at in from..to {
        text.push((at % 251) as u8)?;
    }
    Ok(())
}
