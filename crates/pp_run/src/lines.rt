// The lines that the program prints.
ghost use Rattle.std.specs.Prelude.{◌≡◌, ◌+◌, ◌≤◌, ◌++◌, decimal, length};
ghost use Rattle.pp_run.specs.Lines.{fault_line, no_listener_line};

use arrayvec::ArrayVec;
use itoa::Buffer;
use pp_conf::ConfFault;

/// Room for a line, in bytes.
const LINE_LEN: usize = 128;

pub(crate) type Line = ArrayVec<u8, LINE_LEN>;

/// What is printed where the words have no reading.
pub const USAGE_LINE: &str = "usage: polipo [-c FILE] [-g SEED] [name=value ...]\n";

/// What is printed where memory was refused.
pub const NO_MEMORY_LINE: &str = "polipo: out of memory\n";

/// What is printed where the file could not be read.
pub(crate) const UNREAD_LINE: &str = "polipo: cannot read the configuration\n";

/// What is printed where the folder of the cache cannot be used.
pub(crate) const NO_DISK_LINE: &str = "polipo: cannot list the cache folder\n";

pub(crate) fn no_listener_line(port: u16) -> Line
    ensures { result.items ≡ no_listener_line port }
{
    numbered(b"polipo: cannot listen on port ", u64::from(port), b"\n")
}

/// Why words and text give no settings.
pub(crate) fn fault_line(fault: ConfFault) -> Line
    ensures { result.items ≡ fault_line fault }
{
    match fault {
        ConfFault::Usage => line_of(USAGE_LINE.as_bytes(), b"", b""),
        ConfFault::TooLong => line_of(b"polipo: the configuration is too long\n", b"", b""),
        ConfFault::BadLine(number) => {
            numbered(
                b"polipo: configuration line ",
                number,
                b" is not understood\n",
            )
        }
        ConfFault::BadValue(setting) => {
            line_of(b"polipo: bad value for ", setting.name().as_bytes(), b"\n")
        }
        ConfFault::OutOfMemory => line_of(NO_MEMORY_LINE.as_bytes(), b"", b""),
    }
}

/// A line with a number in its midst.
fn numbered(before: &[u8], number: u64, behind: &[u8]) -> Line
    requires { length before.now + length behind.now ≤ 64 }
    ensures { result.items ≡ before.now ++ decimal number ++ behind.now }
{
    let mut buffer = Buffer::new();
    line_of(before, buffer.format(number).as_bytes(), behind)
}

/// A line of three parts.
fn line_of(first: &[u8], second: &[u8], third: &[u8]) -> Line
    requires { length first.now + length second.now + length third.now ≤ LINE_LEN }
    ensures { result.items ≡ first.now ++ second.now ++ third.now }
{
    let mut line = ArrayVec::new();
    let _ = line.try_extend_from_slice(first);
    let _ = line.try_extend_from_slice(second);
    let _ = line.try_extend_from_slice(third);
    line
}
