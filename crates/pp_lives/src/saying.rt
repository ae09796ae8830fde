// Where a table goes otherwise than wanted.
use pp_text::OutOfMemory;
use std::alloc::Global;
use std::process::Abort;
use std::test::Fail;

/// The name of a table and its first row that goes otherwise. Nothing is said where none does.
pub fn told(alloc: Global, name: &str, place: Option<usize>) -> Result<String, OutOfMemory> {
    match place {
        Some(place) => Ok(format!(in alloc; "{name}: row {place}")?),
        None => Ok(String::new(alloc)),
    }
}

/// A test is a table and this call: proving it is cheap, since what comes of a failure is proved here, once.
pub fn says_nothing(rt: &impl Abort, said: Result<String, OutOfMemory>) -> Result<(), Fail> {
    assert_eq!(*rt; said?.as_str(), "");
    Ok(())
}
