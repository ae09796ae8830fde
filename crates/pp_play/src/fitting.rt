// Whether a text is a reply, or a front of it.
use crate::coding::Place;

/// A part of a text that is wanted.
#[derive(Clone, Copy, Debug)]
pub enum Part<'a> {
    /// Just these bytes.
    Text(&'a [u8]),
    /// So many of this byte.
    Fill(u8, usize),
    /// These bytes in the chunked coding, in chunks of any size, up to its last chunk.
    Coded(&'a [u8]),
}

impl<'a> Part<'a> {
    /// Other bytes, spelled in the same way.
    pub fn with(self, data: &'a [u8]) -> Part<'a> {
        match self {
            Part::Text(_) | Part::Fill(_, _) => Part::Text(data),
            Part::Coded(_) => Part::Coded(data),
        }
    }
}

/// How a text fits what is wanted.
#[derive(Clone, Copy, Debug, PartialEq, Eq)]
pub enum Fit {
    /// It is all that is wanted, and nothing more.
    Whole,
    /// More that is wanted could follow it.
    Front,
    Unlike,
}

/// What is left of a text behind a part at its front.
enum Rest<'a> {
    Behind(&'a [u8]),
    /// The text ends within the part.
    Ends,
    Unlike,
}

/// How a text fits these parts, one behind the other.
pub fn fit_of(text: &[u8], parts: &[Part<'_>]) -> Fit {
    let mut left = text;
    for part in parts {
        let rest = match *part {
            Part::Text(wanted) => behind_text(left, wanted),
            Part::Fill(byte, count) => behind_fill(left, byte, count),
            Part::Coded(data) => behind_chunks(left, data),
        };
        match rest {
            Rest::Behind(behind) => left = behind,
            Rest::Ends => return Fit::Front,
            Rest::Unlike => return Fit::Unlike,
        }
    }
    if left.is_empty() {
        Fit::Whole
    } else {
        Fit::Unlike
    }
}

fn behind_text<'a>(text: &'a [u8], wanted: &[u8]) -> Rest<'a> {
    match text.strip_prefix(wanted) {
        Some(rest) => Rest::Behind(rest),
        None if wanted.starts_with(text) => Rest::Ends,
        None => Rest::Unlike,
    }
}

/// Behind so many of this byte.
fn behind_fill<'a>(text: &'a [u8], byte: u8, count: usize) -> Rest<'a> {
    let (filled, behind) = text.split_at(count.min(text.len()));
    if filled.iter().any(|other| *other != byte) {
        Rest::Unlike
    } else if filled.len() < count {
        Rest::Ends
    } else {
        Rest::Behind(behind)
    }
}

/// Behind these data in the chunked coding.
fn behind_chunks<'a>(text: &'a [u8], data: &[u8]) -> Rest<'a> {
    let mut place = Place::BEGIN;
    let mut left = data;
    for (at, byte) in text.iter().enumerate() {
        if place == Place::End {
            return if left.is_empty() {
                Rest::Behind(text.get(at..).unwrap_or(&[]))
            } else {
                Rest::Unlike
            };
        }
        if let Place::Data(_) = place {
            match left.split_first() {
                Some((first, rest)) if first == byte => left = rest,
                Some(_) | None => return Rest::Unlike,
            }
        }
        match place.next(*byte, left.len()) {
            Some(next) => place = next,
            None => return Rest::Unlike,
        }
    }
    if place == Place::End && left.is_empty() {
        Rest::Behind(&[])
    } else {
        Rest::Ends
    }
}
