// The current request of a client, as far as decisions and replies rest on it (RFC 2616, sections 5, 4.4
// and 8.2.3).
ghost use Rattle.std.specs.Prelude.{◌≡◌, IsTrue, option_map};
ghost use Rattle.pp_client.specs.Clients.{IsAnswerable};
ghost use Rattle.pp_client.specs.Requests.{current_of};
ghost use Rattle.pp_head.specs.Shown.{shown_request};
ghost use Rattle.pp_plan.specs.Requests.{is_head};
ghost use Rattle.pp_seats.specs.Heads.{IsFrontOf, IsKeptOf, IsKeyed, asked_in, head_asked_in, is_other_safe, is_plain, is_there_in, keeps_in, length_in, may_wait, owned_in, status_of, waits_by};

use crate::key::Key;
use pp_client::{Client, Current};
use pp_framing::{BodyRule, FramingFault, request_rule};
use pp_head::RequestHead;
use pp_pipe::binds_connection;
use pp_reply::{is_kept_open, wants_interim};
use pp_target::TargetFault;
use std::alloc::Global;

/// What stands at the front of what a client sent.
#[derive(Drop)]
pub enum Front {
    /// No whole head yet.
    NoHeadYet,
    /// No head, whatever follows: it is refused with this status.
    NoHead(u16),
    Request(Asked),
}

/// What was asked.
#[derive(Drop)]
pub struct Asked {
    /// None where the target has none.
    pub key: Option<Key>,
    /// The status that it is refused with for its head alone.
    pub refusal: Option<u16>,
    /// The minor version of its HTTP.
    pub minor: u8,
    /// Bytes of its body.
    pub body_len: u64,
    /// Whether HEAD is asked.
    pub is_head: bool,
    /// Whether it changes nothing at the origin (section 9.1).
    pub is_safe: bool,
    /// Whether it may change something, or has a body, and is asked once (section 8.1.4).
    pub is_asked_once: bool,
    /// Whether it authenticates that connection, so that nobody else may be asked on it (RFC 4559, section 6).
    pub binds_connection: bool,
    /// Whether the client's connection goes on behind the reply.
    pub keeps_open: bool,
    /// Whether it waits for the interim answer (section 8.2.3).
    pub expects_interim: bool,
}

impl Front {
    /// What stands at the front now.
    #[tactic(auto, using(crate::proofs::HeadLemmas::begun_is, crate::proofs::HeadLemmas::nothing_is, crate::proofs::HeadLemmas::refused_is, crate::proofs::HeadLemmas::request_is))]
    pub fn of(alloc: Global, client: &Client) -> Front
        ensures { IsFrontOf result (current_of client.now.heard) }
    {
        match client.current() {
            Current::Nothing => Front::NoHeadYet,
            Current::More => Front::NoHeadYet,
            Current::Refuse(status) => Front::NoHead(status),
            Current::Request(head, fault) => Front::Request(asked_of(alloc, &head, fault)),
        }
    }

    /// There is something to answer.
    pub fn is_there(&self) -> bool
        ensures { result ≡ is_there_in self.now }
    {
        !matches!(self, Front::NoHeadYet)
    }

    /// What was asked, where a request stands there.
    pub fn asked(&self) -> Option<&Asked>
        ensures { option_map (λ asked. asked.now) result ≡ asked_in self.now }
    {
        match self {
            Front::NoHeadYet | Front::NoHead(_) => None,
            Front::Request(asked) => Some(asked),
        }
    }

    /// The key of that request.
    pub fn key(&self) -> Option<&Key>
        ensures { option_map (λ key. key.now) result ≡ owned_in (asked_in self.now) }
    {
        self.asked()?.key.as_ref()
    }

    /// Whether HEAD is asked.
    pub fn asks_head(&self) -> bool
        ensures { result ≡ head_asked_in (asked_in self.now) }
    {
        match self.asked() {
            None => false,
            Some(asked) => asked.is_head,
        }
    }

    /// Whether the connection goes on behind a page with this status. Ours: behind these no other request
    /// is read, since where theirs ends is not known.
    pub fn keeps_after(&self, status: u16) -> bool
        ensures { result ≡ keeps_in status (asked_in self.now) }
    {
        match self.asked() {
            None => false,
            Some(asked) => asked.keeps_open && !matches!(status, 400 | 411 | 431),
        }
    }
}

fn asked_of(alloc: Global, head: &RequestHead<'_, '_>, fault: Option<u16>) -> Asked
    ensures { IsKeptOf result (shown_request head.now) fault }
{
    let (key, refusal) = key_and_refusal(alloc, head.target, fault);
    let rule = request_rule(&head.fields);
    let body_len = length_of(rule);
    let is_plain = is_plain(head.method);
    Asked {
        key,
        refusal,
        minor: head.minor,
        body_len,
        is_head: is_head(head.method),
        is_safe: is_plain || is_other_safe(head.method),
        is_asked_once: !is_plain || body_len > 0,
        binds_connection: binds_connection(&head.fields),
        keeps_open: is_kept_open(head.minor, &head.fields) && rule.is_ok(),
        expects_interim: may_wait(refusal) && waits(head, rule),
    }
}

/// The key, where there is one, and the status that the request is refused with: that of its target comes first.
#[tactic(auto, using(crate::proofs::HeadLemmas::keyed_by, crate::proofs::HeadLemmas::keyed_well))]
fn key_and_refusal(alloc: Global, target: &[u8], fault: Option<u16>) -> (Option<Key>, Option<u16>)
    ensures { IsKeyed result.0 result.1 target.now fault }
{
    match Key::at(alloc, target) {
        Ok(key) => (Some(key), fault),
        Err(none) => (None, Some(status_of(none))),
    }
}

/// Whether a head with this refusal may wait for the interim answer. Ours: where memory is refused for its key it may, since the
/// client sends its body all the same, and another request behind it.
fn may_wait(refusal: Option<u16>) -> bool
    ensures { result ≡ may_wait refusal }
{
    match refusal {
        None => true,
        Some(status) => status == 500,
    }
}

/// The status of a request whose target names nothing.
fn status_of(fault: TargetFault) -> u16
    ensures { result ≡ status_of fault }
{
    match fault {
        TargetFault::OutOfMemory => 500,
        TargetFault::NotAbsolute
        | TargetFault::NotHttp
        | TargetFault::BadHost
        | TargetFault::BadPort
        | TargetFault::TooLong => 400,
    }
}

fn length_of(rule: Result<BodyRule, FramingFault>) -> u64
    ensures { result ≡ length_in rule }
{
    match rule {
        Ok(BodyRule::Length(n)) => n,
        Ok(BodyRule::Empty | BodyRule::Chunked | BodyRule::ToEnd) | Err(_) => 0,
    }
}

fn waits(head: &RequestHead<'_, '_>, rule: Result<BodyRule, FramingFault>) -> bool
    ensures { result ≡ waits_by head.now.minor head.now.fields rule }
{
    match rule {
        Ok(rule) => wants_interim(head.minor, rule, &head.fields),
        Err(_) => false,
    }
}

fn is_head(method: &[u8]) -> bool
    ensures { result ≡ is_head method.now }
{
    method == b"HEAD".as_slice()
}

fn is_plain(method: &[u8]) -> bool
    ensures { result ≡ is_plain method.now }
{
    method == b"GET".as_slice() || is_head(method)
}

fn is_other_safe(method: &[u8]) -> bool
    ensures { result ≡ is_other_safe method.now }
{
    method == b"OPTIONS".as_slice() || method == b"TRACE".as_slice()
}

/// Whether a request, or what is none, waits for its reply.
pub fn is_answerable(client: &Client) -> bool
    ensures is { IsTrue result → IsAnswerable client.now }
    ensures only { IsAnswerable client.now → IsTrue result }
{
    match client.current() {
        Current::Nothing | Current::More => false,
        Current::Request(_, _) | Current::Refuse(_) => !client.has_begun(),
    }
}
