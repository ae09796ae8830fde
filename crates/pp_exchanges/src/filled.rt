// Texts that are as long as may be, or a byte longer.
use pp_play::with_repeated;
use pp_text::OutOfMemory;
use std::alloc::Global;

/// A text with so many b in it.
pub(crate) struct Filled {
    pub(crate) front: &'static [u8],
    pub(crate) count: u64,
    pub(crate) end: &'static [u8],
}

pub(crate) fn text_of(alloc: Global, filled: &Filled) -> Result<Vec<u8>, OutOfMemory> {
    let mut text = with_repeated(alloc, filled.front, filled.count, b"b")?;
    text.extend_from_slice(filled.end)?;
    Ok(text)
}
