// Exchanges under way: what is done with them, and what they are then.
use crate::saying::told;
use pp_flow::{Aim, Body, EXCHANGES, Errand, Flow, Kind};
use pp_objects::ObjectId;
use pp_target::Place;
use pp_text::OutOfMemory;
use std::alloc::Global;

pub const TEXT: &[u8] = b"GET /a HTTP/1.1\r\nhost: h\r\n\r\n";

/// The whole of `/a` at `h` is asked for.
const ERRAND: Errand = Errand {
    kind: Kind::Whole,
    place: Place {
        host: (7, 8),
        port: 80,
        path: 8,
    },
    is_moved: false,
    is_asked_once: false,
    asks_head: false,
    is_safe: true,
    binds_connection: false,
    accepts_only_identity: false,
    allows_guess: false,
    asked: 0,
    body_left: 0,
    requested: 0,
    body: Body::Pending,
};

/// What is done with the exchanges, and what they are then. An exchange is named by its number.
pub enum Act<'a> {
    /// An exchange of the cache for this client and key: its number. None where there is no room.
    Begin(u64, &'a [u8], Option<u64>),
    /// One that passes a request.
    BeginPass(u64, &'a [u8], Option<u64>),
    /// So many exchanges for `http://h/a`, numbered from 0 on, each for the client of its number.
    BeginMany(u64),
    /// It gets a place on this connection.
    Place(u64, u64),
    /// So many, numbered from 0 on, get a place: the first on connection 50, and the next ones on 51, 52, 53, and so on.
    PlaceMany(u64),
    Unplace(u64),
    Over(u64),
    Leave(u64),
    /// Its body is bound to this instance, or to none.
    Bind(u64, Option<(ObjectId, u64, u64, bool)>),
    /// So many bytes of it come. Whether as many are to come.
    Come(u64, u64, bool),
    /// So many bytes of what it asks were asked. Whether it is there.
    Ask(u64, usize, bool),
    /// The first that waits behind this one.
    Waiting(Option<u64>, Option<u64>),
    /// The first three of a connection's line.
    Line(u64, [Option<u64>; 3]),
    /// The one of this place in it.
    LineAt(u64, usize, Option<u64>),
    Len(usize),
    /// The first three of all, and how many bytes of each were asked.
    Asked([Option<(u64, usize)>; 3]),
    /// Its text is `TEXT`, and whether that was asked whole. None: it is not there.
    Text(u64, Option<bool>),
    AskedBy(u64, Option<u64>),
    ToCome(u64, Option<u64>),
    /// Who asked it, its connection, and whether its head came.
    Is(u64, Option<u64>, Option<u64>, bool),
    BoundTo(u64, Option<(ObjectId, u64, u64, bool)>),
    Key(u64, Option<&'a [u8]>),
    IsOver(u64),
}

fn is_met(flow: &mut Flow, act: &Act<'_>) -> bool {
    match act {
        Act::Begin(client, key, number) => begin(flow, *client, key, Aim::Own) == *number,
        Act::BeginPass(client, key, number) => begin(flow, *client, key, Aim::Pass) == *number,
        Act::BeginMany(count) => begin_many(flow, *count),
        Act::Place(number, connection) => place(flow, *number, *connection),
        Act::PlaceMany(count) => place_many(flow, *count),
        Act::Unplace(number) => unplace(flow, *number),
        Act::Over(number) => over(flow, *number),
        Act::Leave(number) => leave(flow, *number),
        Act::Bind(number, to) => bind(flow, *number, *to),
        Act::Come(number, n, wanted) => come(flow, *number, *n) == *wanted,
        Act::Ask(number, asked, wanted) => ask(flow, *number, *asked) == *wanted,
        Act::Waiting(after, wanted) => flow.waiting(*after) == *wanted,
        Act::Line(connection, wanted) => line(flow, *connection) == *wanted,
        Act::LineAt(connection, index, wanted) => flow.line(*connection, *index) == *wanted,
        Act::Len(len) => flow.len() == *len,
        Act::Asked(wanted) => asked(flow) == *wanted,
        Act::Text(number, wanted) => text(flow, *number) == *wanted,
        Act::AskedBy(client, wanted) => flow.asked_by(*client) == *wanted,
        Act::ToCome(number, wanted) => flow.to_come(*number) == *wanted,
        Act::Is(number, asker, place, headed) => is(flow, *number, *asker, *place, *headed),
        Act::BoundTo(number, wanted) => bound(flow, *number) == *wanted,
        Act::Key(number, wanted) => flow.key(*number) == *wanted,
        Act::IsOver(number) => is_over(flow, *number),
    }
}

fn begin(flow: &mut Flow, client: u64, key: &[u8], aim: Aim) -> Option<u64> {
    if flow.len() < EXCHANGES && key.len() <= 8192 && flow.begun() < u64::MAX {
        Some(flow.begin(client, key, aim, &ERRAND, TEXT))
    } else {
        None
    }
}

fn begin_many(flow: &mut Flow, count: u64) -> bool {
    for number in 0..count {
        if begin(flow, number, b"http://h/a", Aim::Own) != Some(number) {
            return false;
        }
    }
    true
}

/// Whether it waits for a place.
fn place(flow: &mut Flow, number: u64, connection: u64) -> bool {
    if !flow.waits(number) {
        return false;
    }
    flow.set_place(number, connection);
    true
}

fn place_many(flow: &mut Flow, count: u64) -> bool {
    for number in 0..count {
        if !place(flow, number, 50 + number % 4) {
            return false;
        }
    }
    true
}

/// Whether it has a place.
fn unplace(flow: &mut Flow, number: u64) -> bool {
    if !flow.has_place(number) {
        return false;
    }
    flow.unplace(number);
    true
}

fn over(flow: &mut Flow, number: u64) -> bool {
    flow.over(number);
    true
}

fn leave(flow: &mut Flow, number: u64) -> bool {
    flow.leave(number);
    true
}

fn bind(flow: &mut Flow, number: u64, to: Option<(ObjectId, u64, u64, bool)>) -> bool {
    flow.bind(number, to);
    true
}

/// Whether as many are to come.
fn come(flow: &mut Flow, number: u64, n: u64) -> bool {
    match flow.to_come(number) {
        Some(left) if n <= left => {
            flow.came(number, n);
            true
        }
        Some(_) | None => false,
    }
}

fn ask(flow: &mut Flow, number: u64, asked: usize) -> bool {
    match flow.errand_mut(number) {
        Some(errand) => {
            errand.asked = asked;
            true
        }
        None => false,
    }
}

fn line(flow: &Flow, connection: u64) -> [Option<u64>; 3] {
    [
        flow.line(connection, 0),
        flow.line(connection, 1),
        flow.line(connection, 2),
    ]
}

fn asked(flow: &Flow) -> [Option<(u64, usize)>; 3] {
    [asked_at(flow, 0), asked_at(flow, 1), asked_at(flow, 2)]
}

fn asked_at(flow: &Flow, index: usize) -> Option<(u64, usize)> {
    let entry = flow.at(index)?;
    Some((entry.exchange.number, entry.errand.asked))
}

/// Whether it was asked whole, where its text is `TEXT`.
fn text(flow: &Flow, number: u64) -> Option<bool> {
    let entry = flow.entry(number)?;
    if entry.text.as_slice() == TEXT {
        Some(entry.is_outstanding())
    } else {
        None
    }
}

fn is(flow: &Flow, number: u64, asker: Option<u64>, place: Option<u64>, headed: bool) -> bool {
    match flow.get(number) {
        Some(exchange) => {
            exchange.asker == asker && exchange.place == place && exchange.headed == headed
        }
        None => false,
    }
}

fn bound(flow: &Flow, number: u64) -> Option<(ObjectId, u64, u64, bool)> {
    flow.get(number)?.bound
}

fn is_over(flow: &mut Flow, number: u64) -> bool {
    flow.get(number).is_none() && flow.entry(number).is_none() && flow.errand_mut(number).is_none()
}

pub struct Course<'a> {
    pub name: &'a str,
    pub acts: &'a [Act<'a>],
}

/// Where these courses go otherwise than wanted: nothing is said where none does.
pub fn unlike(alloc: Global, courses: &[Course<'_>]) -> Result<String, OutOfMemory> {
    for course in courses {
        let mut flow = Flow::new(alloc)?;
        for (place, act) in course.acts.iter().enumerate() {
            if !is_met(&mut flow, act) {
                return Ok(told(alloc, course.name, Some(place))?);
            }
        }
    }
    Ok(String::new(alloc))
}
