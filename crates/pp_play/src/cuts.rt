// Origins that are lost behind each byte of what they send.
use crate::fitting::{Fit, Part, fit_of};
use crate::playing::{Act, Pace, play};
use pp_text::OutOfMemory;
use std::alloc::Global;

/// A request, a response that is not kept, and how that is passed.
#[derive(Clone, Copy, Debug)]
pub struct Cut<'a> {
    pub request: &'a [u8],
    /// How often the origin is asked, and lost within the head of its response, before the request fails.
    pub attempts: u64,
    /// What the client is said before any reply.
    pub interim: &'a [u8],
    /// The head of the response, and interim ones before it.
    pub head: &'a [u8],
    /// What follows the head.
    pub body: &'a [u8],
    pub reply_head: &'a [u8],
    /// The whole body of the reply.
    pub data: Part<'a>,
    /// Whether the connection's end ends the body.
    pub is_ended_by_end: bool,
    /// The reply where the response is lost within its head at each attempt.
    pub page: &'a [u8],
}

/// The ways to lose an origin.
#[derive(Clone, Copy, Debug, PartialEq, Eq)]
enum Loss {
    Ends,
    Breaks,
}

const LOSSES: [Loss; 2] = [Loss::Ends, Loss::Breaks];

/// Where the origin ends or breaks behind some byte, and the client is said what is no lawful reply and no front of one.
/// Nothing is said where there is no such byte. For each byte and each loss a client of its own comes, one behind the other.
pub fn unlike_when_cut(alloc: Global, cut: &Cut<'_>) -> Result<String, OutOfMemory> {
    let mut response = Vec::from_slice(alloc, cut.head)?;
    response.extend_from_slice(cut.body)?;
    let mut acts = Vec::new(alloc);
    let mut client: u64 = 1;
    for len in 0..response.len() {
        for loss in LOSSES {
            let front = response.as_slice().get(..len).unwrap_or(&[]);
            put_acts(cut, client, front, loss, &mut acts)?;
            client = client_behind(cut, client, len);
        }
    }
    let played = play(alloc, Pace::Whole, acts.as_slice())?;
    client = 1;
    for len in 0..response.len() {
        for loss in LOSSES {
            let said = played.said(client)?;
            if !is_lawful(cut, len, loss, said.as_slice()) {
                let said = String::from_utf8_lossy(alloc, said.as_slice())?;
                return Ok(format!(in alloc; "the origin {loss:?} behind byte {len}: {said:?}")?);
            }
            client = client_behind(cut, client, len);
        }
    }
    Ok(String::new(alloc))
}

/// Adds a client that asks, and an origin that is lost behind this, as often as it is dialled.
fn put_acts<'x>(
    cut: &Cut<'x>,
    client: u64,
    front: &'x [u8],
    loss: Loss,
    acts: &mut Vec<Act<'x>>,
) -> Result<(), OutOfMemory> {
    acts.extend_from_slice(&[Act::Connect, Act::Say(client, cut.request)])?;
    let mut origin = client;
    for _attempt in 0..dials_of(cut, front.len()) {
        origin = origin.saturating_add(1);
        let lost = match loss {
            Loss::Ends => Act::End(origin),
            Loss::Breaks => Act::Break(origin),
        };
        acts.extend_from_slice(&[Act::Reach(origin), Act::Answer(origin, front), lost])?;
    }
    acts.extend_from_slice(&[Act::HangUp(client)])?;
    Ok(())
}

/// How often the origin is dialled that is lost behind so many bytes: once its head came, the reply has begun, and nothing
/// is asked again.
fn dials_of(cut: &Cut<'_>, len: usize) -> u64 {
    if len < cut.head.len() {
        cut.attempts
    } else {
        1
    }
}

/// The number of the client behind this one, for whom the origin is lost behind so many bytes.
fn client_behind(cut: &Cut<'_>, client: u64, len: usize) -> u64 {
    client.saturating_add(1).saturating_add(dials_of(cut, len))
}

/// Within the head it is the page. Behind it, it is the reply's head and a front of the body, or the body up to there where
/// the connection's end ends it.
fn is_lawful(cut: &Cut<'_>, len: usize, loss: Loss, said: &[u8]) -> bool {
    let Some(said) = said.strip_prefix(cut.interim) else {
        return false;
    };
    let Some(came) = len.checked_sub(cut.head.len()) else {
        return said == cut.page;
    };
    let Some(body) = said.strip_prefix(cut.reply_head) else {
        return false;
    };
    if cut.is_ended_by_end && loss == Loss::Ends {
        let data = cut.body.get(..came).unwrap_or(cut.body);
        return fit_of(body, &[cut.data.with(data)]) == Fit::Whole;
    }
    match cut.data {
        // a front of it shows that it is none
        Part::Coded(_) => fit_of(body, &[cut.data]) == Fit::Front,
        Part::Text(_) | Part::Fill(_, _) => fit_of(body, &[cut.data]) != Fit::Unlike,
    }
}
