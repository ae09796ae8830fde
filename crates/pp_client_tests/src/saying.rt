// That nothing is said where a course goes as wanted.
use pp_text::OutOfMemory;
use std::process::Abort;
use std::test::Fail;

/// A test is a table and this call: proving it is cheap, since what comes of a failure is proved here, once.
pub fn says_nothing(rt: &impl Abort, said: Result<String, OutOfMemory>) -> Result<(), Fail> {
    assert_eq!(*rt; said?.as_str(), "");
    Ok(())
}
