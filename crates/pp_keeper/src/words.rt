// What the words ask for.
use crate::body::BODY_LEN;
use crate::filling::RUN_CHUNKS;
use pp_text::read_u64;

/// The entries that a folder is filled with at most.
const MOST_ENTRIES: u64 = 10_000;

/// What is to be done with a folder.
#[derive(Drop)]
pub(crate) enum Task<'a> {
    Fill(Filling<'a>),
    List(Listing<'a>),
    Seek(Listing<'a>),
}

impl<'a> Task<'a> {
    /// The folder that it is done with.
    pub(crate) fn folder(&self) -> &'a [u8] {
        match self {
            Task::Fill(filling) => filling.folder,
            Task::List(listing) | Task::Seek(listing) => listing.folder,
        }
    }
}

/// Entries that are to be kept.
#[derive(Drop)]
pub(crate) struct Filling<'a> {
    pub(crate) folder: &'a [u8],
    pub(crate) count: u64,
    /// The bytes of each body.
    pub(crate) length: u64,
    /// The chunks that are sealed at once.
    pub(crate) chunks: u64,
}

/// Entries that are to be told of, or asked for.
#[derive(Drop)]
pub(crate) struct Listing<'a> {
    pub(crate) folder: &'a [u8],
    pub(crate) count: u64,
}

/// The task of these words. `None` where they have no reading.
pub(crate) fn task_of(words: &[String]) -> Option<Task<'_>> {
    let verb = words.first()?.as_bytes();
    let folder = words.get(1)?.as_bytes();
    let count = number_in(words, 2, 0, MOST_ENTRIES)?;
    match (verb, words.len()) {
        (b"list", 3) => Some(Task::List(Listing { folder, count })),
        (b"seek", 3) => Some(Task::Seek(Listing { folder, count })),
        (b"fill", 4 | 5) => Some(Task::Fill(Filling {
            folder,
            count,
            length: number_in(words, 3, 1, BODY_LEN)?,
            chunks: if words.len() == 4 {
                1
            } else {
                number_in(words, 4, 1, RUN_CHUNKS)?
            },
        })),
        _ => None,
    }
}

/// The word at this place, where it is a number from `least` to `most`.
fn number_in(words: &[String], place: usize, least: u64, most: u64) -> Option<u64> {
    let number = read_u64(words.get(place)?.as_bytes())?;
    if least <= number && number <= most {
        Some(number)
    } else {
        None
    }
}
