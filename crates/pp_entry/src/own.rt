// The lines of this proxy's own, which stand behind the kept fields.
ghost use Rattle.std.specs.Prelude.{◌≡◌, option_map};
ghost use Rattle.pp_entry.specs.Entries.{is_sized, own_in, shown_own};

use pp_fresh::Times;
use pp_text::{Fields, read_u64};

/// How many they are.
const OWN_LINES: usize = 5;

/// The longest body that has an entry, in bytes.
const MAX_LENGTH: u64 = 67_108_864;

/// What they say.
#[derive(Clone, Copy)]
pub(crate) struct OwnLines<'a> {
    pub(crate) key: &'a [u8],
    pub(crate) times: Times,
    /// Bytes of the body.
    pub(crate) length: u64,
    /// The fields before them.
    pub(crate) count: usize,
}

/// What the last five of these fields say.
pub(crate) fn own_in<'a>(fields: &Fields<'a, '_>) -> Option<OwnLines<'a>>
    ensures { option_map shown_own result ≡ own_in fields.now }
{
    if fields.len() < OWN_LINES {
        return None;
    }
    let count = fields.len() - OWN_LINES;
    let response = read_u64(fields.value(count + 1))?;
    let initial = read_u64(fields.value(count + 2))?;
    let length = read_u64(fields.value(count + 3))?;
    if !is_sized(length) {
        return None;
    }
    Some(OwnLines {
        key: fields.value(count),
        times: Times {
            request: response,
            response,
            initial,
            may_guess: false,
        },
        length,
        count,
    })
}

fn is_sized(n: u64) -> bool
    ensures { result ≡ is_sized n }
{
    1 <= n && n <= MAX_LENGTH
}
