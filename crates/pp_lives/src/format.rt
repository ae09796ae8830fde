// What a file says, by the disk format: a head block of 8,192 bytes, one gate a chunk, and the body.
use crate::entries::Entry;
use std::alloc::{AllocError, Global};

/// What stands under a name.
#[derive(Clone, Copy, PartialEq, Eq)]
pub enum Found {
    Nothing,
    /// The entry that may, which keeps so many bytes of its body, each as it was written.
    Entry(u64),
    /// Anything else.
    Other,
}

/// What stands under a name with this file, where this entry, of at most 4,096 chunks, may.
pub fn found_in(file: Option<&[u8]>, entry: &Entry, noise: &[u8]) -> Found {
    match file {
        None => Found::Nothing,
        Some(file) => match kept_in(file, entry.head, entry.whole(noise)) {
            Some(count) => Found::Entry(count),
            None => Found::Other,
        },
    }
}

/// How many bytes of this body a file vouches for, under this head. `None` where it is no such entry, or
/// vouches for any other byte.
fn kept_in(file: &[u8], head: &[u8], body: &[u8]) -> Option<u64> {
    let block = file.get(..8192)?;
    let gates = file.get(8192..12_288)?.get(..body.len().div_ceil(4096))?;
    let is_head = block.get(..head.len())? == head
        && block.get(head.len()..)?.iter().all(|byte| *byte == 0);
    // The gates that are 0x01 before the first that is not.
    let open = gates.iter().take_while(|gate| **gate == 1).count();
    let count = open.saturating_mul(4096).min(body.len());
    if is_head && file.get(12_288..)?.get(..count)? == body.get(..count)? {
        Some(count as u64)
    } else {
        None
    }
}

/// A file with this head, these gates, at most 4,096, and this body.
pub fn laid_out(
    alloc: Global,
    head: &[u8],
    gates: &[u8],
    body: &[u8],
) -> Result<Vec<u8>, AllocError> {
    let mut file = Vec::from_slice(alloc, head)?;
    file.resize(8192, 0)?;
    file.extend_from_slice(gates)?;
    file.resize(12_288, 0)?;
    file.extend_from_slice(body)?;
    Ok(file)
}
