// What is printed, and where: complaints go to standard error.
ghost use Rattle.std.specs.Prelude.{◌≡◌, ◌||◌, nat_eq, codes};
ghost use Rattle.std.specs.List.{starts_with};

use std::io;

/// Complaints begin with the program's name or with `usage:`, and go to standard error. All else goes to
/// standard output.
pub fn print<R: Print + Eprint>(rt: &R, bytes: &[u8]) -> io::Result<()> {
    if is_complaint(bytes) {
        rt.eprint(str::from_utf8(bytes).unwrap_or("polipo: a line that is no text\n"))
    } else {
        rt.write_all(bytes)
    }
}

fn is_complaint(bytes: &[u8]) -> bool
    ensures { result ≡ (starts_with nat_eq bytes.now (codes "polipo:") || starts_with nat_eq bytes.now (codes "usage:")) }
{
    bytes.starts_with(b"polipo:") || bytes.starts_with(b"usage:")
}
