// Thirty requests, one behind the other.
use crate::cache::Cache;
use crate::talk::Talk;
use arrayvec::ArrayVec;

/// How many requests are pipelined.
const REQUESTS: u8 = 30;

/// How the bytes of the requests are cut.
#[derive(Clone, Copy)]
pub enum Pieces<'a> {
    /// In two, behind so many bytes.
    Two(usize),
    /// Into pieces of these sizes, over and over.
    Sizes(&'a [usize]),
}

/// The target of the request with this number.
fn target(number: u8) -> [u8; 3] {
    [b'/', b'0' + number / 10 % 10, b'0' + number % 10]
}

/// Thirty requests, each third with a body that looks like a request.
fn requests() -> ArrayVec<u8, 4096> {
    let mut sent = ArrayVec::new();
    for number in 0..REQUESTS {
        put_request(number, &mut sent);
    }
    sent
}

fn put_request(number: u8, sent: &mut ArrayVec<u8, 4096>) {
    let (method, rest) = words_of(number % 3 == 0);
    let _ = sent.try_extend_from_slice(method);
    let _ = sent.try_extend_from_slice(&target(number));
    let _ = sent.try_extend_from_slice(rest);
}

/// What stands before and behind the target.
fn words_of(has_body: bool) -> (&'static [u8], &'static [u8]) {
    if has_body {
        (
            b"POST ",
            b" HTTP/1.1\r\nContent-Length: 19\r\n\r\nGET /x HTTP/1.1\r\n\r\n",
        )
    } else {
        (b"GET ", b" HTTP/1.1\r\n\r\n")
    }
}

/// Whether the requests are answered in their order, each as soon as it is current, where they come in these pieces.
pub fn are_answered(talk: &mut Talk, cache: &Cache, pieces: Pieces<'_>) -> bool {
    let sent = requests();
    match pieces {
        Pieces::Two(cut) => {
            let (first, second) = sent.as_slice().split_at(cut.min(sent.len()));
            let number = answer(talk, cache, first, 0);
            answer(talk, cache, second, number) == REQUESTS
        }
        Pieces::Sizes(sizes) => answer_pieces(talk, cache, sent.as_slice(), sizes) == REQUESTS,
    }
}

/// Hears the pieces one after the other, and answers what is current behind each. The number of the next request.
fn answer_pieces(talk: &mut Talk, cache: &Cache, sent: &[u8], sizes: &[usize]) -> u8 {
    let mut number = 0;
    let mut rest = sent;
    for turn in 0..sent.len() {
        if rest.is_empty() || sizes.is_empty() {
            break;
        }
        let (piece, behind) = rest.split_at(sizes[turn % sizes.len()].min(rest.len()));
        number = answer(talk, cache, piece, number);
        rest = behind;
    }
    number
}

/// Hears these bytes, and answers the requests that are current then, from this number on. The number of the next one.
fn answer(talk: &mut Talk, cache: &Cache, bytes: &[u8], first: u8) -> u8 {
    let mut number = first;
    if !talk.hear(bytes) {
        return number;
    }
    for _ in 0..REQUESTS {
        if number >= REQUESTS || !talk.answer_at(cache, &target(number)) {
            break;
        }
        number += 1;
    }
    number
}
