// The front of a file.
ghost use Rattle.std.specs.Prelude.{◌≤◌, length, IfOk};

use pp_text::Octets;
use pp_world::{CONFIG_READ_LEN, ConfigFault};
use std::alloc::Global;
use std::fs;
use std::io::{ErrorKind, Read};
use std::rt::Files;

/// How many bytes one read takes at most.
const PIECE_LEN: usize = 4096;

/// The first bytes of a configuration file, up to `CONFIG_READ_LEN`.
pub fn read_front<R: Files>(rt: &R, alloc: Global, name: &str) -> Result<Octets, ConfigFault>
    ensures { IfOk result (λ text. length text ≤ CONFIG_READ_LEN) }
{
    let Ok(mut file) = fs::open(rt, name) else {
        return Err(ConfigFault::Unreadable);
    };
    let mut text = Octets::empty(alloc);
    let mut piece = [0u8; PIECE_LEN];
    let mut room = CONFIG_READ_LEN;
    for _ in 0..u64::MAX {
        if room == 0 {
            break;
        }
        let asked = room.min(PIECE_LEN);
        let front = &mut piece[..asked];
        match file.read(front) {
            Ok(0) => break,
            Ok(n) => {
                if text.append(&front[..n]).is_err() {
                    return Err(ConfigFault::OutOfMemory);
                }
                room -= n;
            }
            Err(e) if e.kind() == ErrorKind::Interrupted => {}
            Err(_) => return Err(ConfigFault::Unreadable),
        }
    }
    Ok(text)
}
