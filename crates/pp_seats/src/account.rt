// What the operator's log is to say of a reply. No reply rests on it.
ghost use Rattle.std.specs.Prelude.{◌≡◌, ◌⊎◌, [], IfOk};
ghost use Rattle.pp_client.specs.Requests.{current_of};
ghost use Rattle.pp_head.specs.Shown.{shown_request};
ghost use Rattle.pp_seats.specs.Accounts.{anew, begun, brought, decided, head_len_in, line_of, request_line, said, source_after, version_text, with_rest};

use pp_client::{Client, Current};
use pp_head::RequestHead;
use pp_text::{Octets, OutOfMemory};
use pp_world::{Decision, Source};
use std::alloc::Global;

/// What is known of the reply to the current request, for the operator's log.
///
/// ```text
/// Unkept        for ever               there is no log
/// Due    -> Due                        a decision is taken, or its exchange brought something  [decide, bring]
/// Due    -> Begun                      its reply begins                                        [begin]
/// Begun  -> Begun                      bytes of it are said                                    [say]
/// Begun  -> Due                        the next request stands                                 [renew]
/// ```
#[derive(Drop)]
pub enum Account {
    /// There is no log.
    Unkept,
    /// No reply has begun. If the next does by what is known now, it is made of this.
    Due(Source),
    /// Its reply has begun.
    Begun(Told),
}

/// A reply that has begun.
#[derive(Drop)]
pub struct Told {
    /// The first line of its request; empty where that is none, or memory was refused for it.
    pub line: Octets,
    /// The status.
    pub status: u16,
    /// What the reply is made of.
    pub source: Source,
    /// Bytes of the interim answer and of the head that are still to be said.
    pub head_left: usize,
    /// Bytes of the body that were said.
    pub body_len: u64,
}

impl Account {
    /// This is decided for the request.
    pub fn decide(&mut self, decision: Decision)
        ensures { self.new ≡ decided decision self.old }
    {
        if let Account::Due(due) = self {
            *due = source_after(decision, *due);
        }
    }

    /// The exchange of the request itself brought this.
    pub fn bring(&mut self, source: Source)
        ensures { self.new ≡ brought source self.old }
    {
        if let Account::Due(due) = self {
            *due = source;
        }
    }

    /// Its reply begins: so many bytes stand before its body.
    pub fn begin(&mut self, line: Octets, status: u16, head_left: usize)
        ensures { self.new ≡ begun line status head_left self.old }
    {
        if let Account::Due(source) = *self {
            *self = Account::Begun(Told {
                line,
                status,
                source,
                head_left,
                body_len: 0,
            });
        }
    }

    /// So many bytes were said.
    pub fn say(&mut self, n: usize)
        ensures { self.new ≡ said n self.old }
    {
        if let Account::Begun(told) = self {
            let of_body = n.saturating_sub(told.head_left);
            told.head_left = told.head_left.saturating_sub(n);
            told.body_len = told.body_len.saturating_add(of_body as u64);
        }
    }

    /// The next request stands.
    pub fn renew(&mut self)
        ensures { self.new ≡ anew self.old }
    {
        match self {
            Account::Unkept => {}
            Account::Due(_) | Account::Begun(_) => *self = Account::Due(Source::Hit),
        }
    }
}

/// What a reply is made of, behind this decision.
fn source_after(decision: Decision, due: Source) -> Source
    ensures { result ≡ source_after decision due }
{
    match decision {
        Decision::Refuse(_) => Source::Refused,
        Decision::Hit(_, _) | Decision::Head | Decision::NotModified | Decision::Unsatisfiable =>
            due,
        Decision::Part(_, _) => with_rest(due),
        Decision::Relay | Decision::Pass => Source::Passed,
        Decision::Validate | Decision::Fetch => Source::Hit,
    }
}

/// What is missing is asked for, or on its way where its own exchange brought the row.
fn with_rest(due: Source) -> Source
    ensures { result ≡ with_rest due }
{
    match due {
        Source::Fetched => Source::Fetched,
        Source::Hit | Source::Part | Source::Checked | Source::Passed | Source::Refused =>
            Source::Part,
    }
}

/// The first line of what stands at the front of what the client sent; empty where memory is refused for it.
pub(crate) fn line_of(alloc: Global, client: &Client) -> Octets
    ensures { (result ≡ []) ⊎ (result ≡ line_of (current_of client.now.heard)) }
{
    let line = match client.current() {
        Current::Nothing | Current::More | Current::Refuse(_) => return Octets::empty(alloc),
        Current::Request(head, _) => request_line(alloc, &head),
    };
    match line {
        Ok(line) => line,
        Err(OutOfMemory) => Octets::empty(alloc),
    }
}

fn request_line(alloc: Global, head: &RequestHead<'_, '_>) -> Result<Octets, OutOfMemory>
    ensures { IfOk result (λ line. line ≡ request_line (shown_request head.now)) }
{
    let mut line = Octets::copy(alloc, head.method)?;
    line.append(b" ")?;
    line.append(head.target)?;
    line.append(version_text(head.minor))?;
    Ok(line)
}

fn version_text(minor: u8) -> &'static [u8]
    ensures { result.now ≡ version_text minor }
{
    if minor == 0 {
        b" HTTP/1.0"
    } else {
        b" HTTP/1.1"
    }
}

/// Bytes of the head at the front of this text, through the empty line that ends it.
pub fn head_in(text: &[u8]) -> usize
    ensures { result ≡ head_len_in text.now }
{
    for at in 0..text.len() {
        if text[at..].starts_with(b"\r\n\r\n") {
            return at + 4;
        }
    }
    text.len()
}
