// What of a table goes otherwise than it is written down.
use std::alloc::Global;
use std::test::Fail;

/// The first line of a table that goes otherwise: its course, and which of its parts, counted from 0.
#[derive(Clone, Copy)]
pub struct Unlike<'a> {
    pub course: &'a str,
    pub part: &'static str,
    pub place: usize,
}

/// A test fails where a line goes otherwise, and says which.
pub fn settled(alloc: Global, found: Option<Unlike<'_>>) -> Result<(), Fail> {
    match found {
        Some(line) => {
            let text = format!(in alloc; "{}: {} {}", line.course, line.part, line.place)?;
            Err(text.into())
        }
        None => Ok(()),
    }
}
