// The file of an entry with a byte changed, or cut: how much of the body is kept, if it counts as an entry.
use crate::entries::{A, A_NAME, Bytes, Entry, File, HELLO, TWO, noise};
use crate::life::{Morning, Opened};
use crate::saying::{says_nothing, told};
use pp_memworld::put_file;
use pp_text::{Octets, OutOfMemory};
use pp_world::Image;
use std::alloc::Global;
use std::test::Fail;

/// Whether so many bytes of the key `A` are kept of a folder with this file, where nothing is written. `None`: it is no
/// entry.
fn is_extent(alloc: Global, file: &[u8], extent: Option<u64>) -> Result<bool, OutOfMemory> {
    let mut image = Image::new(alloc);
    put_file(&mut image, A_NAME, Octets::copy(alloc, file)?)?;
    match Morning::over(alloc, image, &[])?.open(alloc) {
        Opened::Life(life) => Ok(life.log().len() == 3 && life.extent(A) == extent),
        Opened::Refused(_, _) => Ok(false),
    }
}

/// Bytes that come to stand in the file of an entry, one at a time.
struct Put {
    of: &'static Entry,
    gates: &'static [u8],
    /// The first place, the one behind the last, and how far it is from one to the next.
    places: (usize, usize, usize),
    /// The least byte and the greatest.
    bytes: (u8, u8),
    extent: Option<u64>,
}

const PUTS: &[Put] = &[
    // A gate of any byte but one is closed, and the gates before it count.
    Put {
        of: HELLO,
        gates: &[1],
        places: (8192, 8193, 1),
        bytes: (0, 0),
        extent: Some(0),
    },
    Put {
        of: HELLO,
        gates: &[0],
        places: (8192, 8193, 1),
        bytes: (1, 1),
        extent: Some(5),
    },
    Put {
        of: HELLO,
        gates: &[1],
        places: (8192, 8193, 1),
        bytes: (2, 255),
        extent: Some(0),
    },
    Put {
        of: TWO,
        gates: &[1, 1],
        places: (8193, 8194, 1),
        bytes: (0, 0),
        extent: Some(4096),
    },
    Put {
        of: TWO,
        gates: &[1, 1],
        places: (8193, 8194, 1),
        bytes: (2, 255),
        extent: Some(4096),
    },
    // A zero in the head, or another byte behind it, makes it none.
    Put {
        of: HELLO,
        gates: &[1],
        places: (0, 217, 1),
        bytes: (0, 0),
        extent: None,
    },
    Put {
        of: HELLO,
        gates: &[1],
        places: (217, 220, 1),
        bytes: (b' ', b' '),
        extent: None,
    },
    Put {
        of: HELLO,
        gates: &[1],
        places: (511, 8192, 512),
        bytes: (b' ', b' '),
        extent: None,
    },
];

/// Whether so much is kept of each file that has one of these bytes at one of these places.
fn is_kept(alloc: Global, put: &Put) -> Result<bool, OutOfMemory> {
    let made = File {
        name: A_NAME,
        bytes: Bytes::Entry(put.of, put.gates),
    };
    let mut file = made.bytes(alloc, &noise(99))?;
    let (from, to, step) = put.places;
    for place in (from..to).step_by(step.max(1)) {
        if !is_kept_at(alloc, &mut file, place, put)? {
            return Ok(false);
        }
    }
    Ok(true)
}

/// The same of one of the places. The file is then as it was.
fn is_kept_at(
    alloc: Global,
    file: &mut [u8],
    place: usize,
    put: &Put,
) -> Result<bool, OutOfMemory> {
    let Some(old) = file.get(place).copied() else {
        return Ok(false);
    };
    for byte in put.bytes.0..=put.bytes.1 {
        write_at(file, place, byte);
        if !is_extent(alloc, file, put.extent)? {
            return Ok(false);
        }
    }
    write_at(file, place, old);
    Ok(true)
}

fn write_at(file: &mut [u8], place: usize, byte: u8) {
    if let Some(at) = file.get_mut(place) {
        *at = byte;
    }
}

fn unlike_puts(alloc: Global, puts: &[Put]) -> Result<String, OutOfMemory> {
    for (place, put) in puts.iter().enumerate() {
        if !is_kept(alloc, put)? {
            return told(alloc, "bytes", Some(place));
        }
    }
    told(alloc, "bytes", None)
}

#[test]
fn a_byte_that_is_changed_closes_its_gate_or_ends_the_entry(rt: HostRuntime) -> Result<(), Fail> {
    says_nothing(&rt, unlike_puts(rt.alloc(), PUTS))
}

/// The file of an entry of 5 bytes, cut after so many bytes: from the first of these to the last.
struct Cut {
    gates: &'static [u8],
    ends: (usize, usize),
    extent: Option<u64>,
}

// The text ends at 217, the head block at 8192, the gates at 12288, and the body at 12293.
const CUTS: &[Cut] = &[
    Cut {
        gates: &[1],
        ends: (0, 1),
        extent: None,
    },
    Cut {
        gates: &[1],
        ends: (215, 218),
        extent: None,
    },
    Cut {
        gates: &[1],
        ends: (8190, 8194),
        extent: None,
    },
    Cut {
        gates: &[1],
        ends: (12_285, 12_292),
        extent: None,
    },
    Cut {
        gates: &[1],
        ends: (12_293, 12_293),
        extent: Some(5),
    },
    Cut {
        gates: &[0],
        ends: (0, 1),
        extent: None,
    },
    Cut {
        gates: &[0],
        ends: (215, 218),
        extent: None,
    },
    Cut {
        gates: &[0],
        ends: (8190, 8194),
        extent: None,
    },
    Cut {
        gates: &[0],
        ends: (12_285, 12_287),
        extent: None,
    },
    Cut {
        gates: &[0],
        ends: (12_288, 12_293),
        extent: Some(0),
    },
];

fn is_kept_though_cut(alloc: Global, cut: &Cut) -> Result<bool, OutOfMemory> {
    let made = File {
        name: A_NAME,
        bytes: Bytes::Entry(HELLO, cut.gates),
    };
    let file = made.bytes(alloc, &[])?;
    for end in cut.ends.0..=cut.ends.1 {
        let Some(front) = file.get(..end) else {
            return Ok(false);
        };
        if !is_extent(alloc, front, cut.extent)? {
            return Ok(false);
        }
    }
    Ok(true)
}

fn unlike_cuts(alloc: Global, cuts: &[Cut]) -> Result<String, OutOfMemory> {
    for (place, cut) in cuts.iter().enumerate() {
        if !is_kept_though_cut(alloc, cut)? {
            return told(alloc, "cuts", Some(place));
        }
    }
    told(alloc, "cuts", None)
}

#[test]
fn a_file_that_was_cut_counts_where_it_has_all_that_it_vouches_for(
    rt: HostRuntime,
) -> Result<(), Fail> {
    says_nothing(&rt, unlike_cuts(rt.alloc(), CUTS))
}
