// A client. What a call asks for is tested before it.
ghost use Rattle.std.specs.Prelude.{◌≡◌, ◌<◌, IfSome, true};
ghost use Rattle.pp_objects.specs.Instances.{is_there};
ghost use Rattle.pp_client.specs.Replies.{IsBeginning, next_byte};
ghost use Rattle.pp_client.specs.declared.reply.Stage.TheVariants.{Due};
ghost use Rattle.pp_client.specs.Requests.{current_of, is_answerable};

use crate::cache::Cache;
use pp_client::{Begin, Client, Current, Room};
use pp_objects::{ObjectId, Objects};
use pp_text::OutOfMemory;
use std::alloc::{AllocError, Global};

/// What a reply consists of behind its head.
#[derive(Clone, Copy)]
pub enum Reply {
    Page,
    /// Of the row that was settled last, from one offset up to another.
    Instance(u64, u64),
    Passed,
}

#[derive(Drop)]
pub struct Talk {
    client: Client,
    room: Box<Room>,
    /// What was said since this was last looked at.
    said: Vec<u8>,
}

impl Talk {
    pub fn new(alloc: Global) -> Result<Talk, OutOfMemory> {
        Ok(Talk {
            client: Client::new(alloc, 1, 0)?,
            room: boxed(alloc).map_err(|_| OutOfMemory)?,
            said: Vec::new(alloc),
        })
    }

    /// Another client takes the place of the one before.
    pub fn renew(&mut self, alloc: Global) -> bool {
        match Client::new(alloc, 1, 0) {
            Ok(client) => {
                self.client = client;
                true
            }
            Err(OutOfMemory) => false,
        }
    }
}

fn boxed(alloc: Global) -> Result<Box<Room>, AllocError> {
    Ok(Box::new(alloc, Room::new())?)
}

/// What is heard.
impl Talk {
    /// Whether there is room.
    pub fn hear(&mut self, bytes: &[u8]) -> bool {
        if bytes.len() > self.client.room() {
            return false;
        }
        self.client.hear(bytes);
        true
    }

    pub fn hear_times(&mut self, times: usize, bytes: &[u8]) -> bool {
        for _ in 0..times {
            if !self.hear(bytes) {
                return false;
            }
        }
        true
    }

    pub fn room(&self) -> usize {
        self.client.room()
    }

    /// The status of a refusal, 200 at a request, 1 where the head is to come, and 0 where nothing was heard.
    pub fn status(&self) -> u16 {
        front(&self.client).0
    }

    /// Whether a request for this target is current, whose framing is not refused.
    pub fn is_at(&self, wanted: &[u8]) -> bool {
        let (status, target) = front(&self.client);
        status == 200 && target == wanted
    }

    pub fn body(&self) -> &[u8] {
        self.client.body()
    }

    /// Whether there are so many.
    pub fn take_body(&mut self, n: usize) -> bool {
        if n > self.client.body().len() {
            return false;
        }
        self.client.body_took(n);
        true
    }

    pub fn drop_body(&mut self) -> bool {
        self.client.drop_body();
        true
    }

    /// So many pieces of 4,096 bytes of a body come. Behind each all that is there is taken where that is more than 8,000 bytes,
    /// and else 1,000 bytes are. How many are taken of all.
    pub fn stream(&mut self, pieces: u32) -> Option<u64> {
        let mut taken: u64 = 0;
        for _ in 0..pieces {
            taken = taken.saturating_add(self.piece_taken()?);
        }
        Some(taken)
    }

    fn piece_taken(&mut self) -> Option<u64> {
        if !self.hear(&[b'x'; 4096]) {
            return None;
        }
        let there = self.body().len();
        let n = if there > 8000 { there } else { 1000 };
        if there < 16384 && self.take_body(n) {
            Some(n as u64)
        } else {
            None
        }
    }
}

/// What is said.
impl Talk {
    /// Whether the interim answer may be said.
    pub fn interim(&mut self) -> bool {
        if !self.client.may_interim() {
            return false;
        }
        self.client.interim();
        true
    }

    /// The reply begins, with this text in the head buffer. Whether it may.
    pub fn begin(&mut self, cache: &Cache, text: &[u8], reply: Reply) -> bool {
        match begin_of(reply, cache.row) {
            Some(begin) => self.begin_by(text, begin),
            None => false,
        }
    }

    fn begin_by(&mut self, text: &[u8], reply: Begin) -> bool {
        let (status, _) = front(&self.client);
        status > 1 && begin(&mut self.client, text, reply)
    }

    pub fn has_begun(&self) -> bool {
        self.client.has_begun()
    }

    /// Whether the next byte of the reply is this one of the row.
    pub fn is_next(&self, cache: &Cache, wanted: Option<u64>) -> bool {
        match (self.client.next_byte(), wanted) {
            (Some((id, at)), Some(wanted)) => cache.row == Some(id) && at == wanted,
            (None, None) => true,
            (Some(_), None) | (None, Some(_)) => false,
        }
    }

    /// Says at most so many bytes of what is at hand, and answers how many.
    pub fn say(&mut self, cache: &Cache, most: usize) -> Option<usize> {
        if !is_next_there(&self.client, &cache.objects) {
            return None;
        }
        let offer = self
            .client
            .gather(&cache.objects, &cache.pool, &mut self.room);
        let n = most.min(offer.len());
        if self.said.extend_from_slice(&offer[..n]).is_err() {
            return None;
        }
        self.client.took(n);
        Some(n)
    }

    /// Says all that is at hand, in pieces of so many bytes. Whether that ends.
    pub fn say_all(&mut self, cache: &Cache, most: usize) -> bool {
        for _ in 0..100_000 {
            match self.say(cache, most) {
                Some(0) => return true,
                Some(_) => {}
                None => return false,
            }
        }
        false
    }

    /// Whether just this was said since this was last asked.
    pub fn has_said(&mut self, wanted: &[u8]) -> bool {
        let is_said = self.said.as_slice() == wanted;
        self.said.clear();
        is_said
    }

    /// Answers what is current with a page. Whether it is offered.
    pub fn answer(&mut self, cache: &Cache) -> bool {
        let (status, _) = front(&self.client);
        status > 1 && say_page(&mut self.client, cache)
    }

    /// The same where it is a request for this target, whose framing is not refused.
    pub fn answer_at(&mut self, cache: &Cache, wanted: &[u8]) -> bool {
        let (status, target) = front(&self.client);
        status == 200 && target == wanted && say_page(&mut self.client, cache)
    }

    pub fn pass(&mut self, is_chunked: bool) -> bool {
        self.client.pass().start(is_chunked);
        true
    }

    /// Whether the pipe takes these bytes.
    pub fn put(&mut self, bytes: &[u8]) -> bool {
        let pass = self.client.pass();
        if pass.finished() || bytes.is_empty() || bytes.len() > pass.room() {
            return false;
        }
        pass.put(bytes);
        true
    }

    pub fn finish(&mut self) -> bool {
        let pass = self.client.pass();
        if pass.finished() {
            return false;
        }
        pass.finish();
        true
    }

    /// The client takes no byte.
    pub fn take_none(&mut self) -> bool {
        self.client.took(0);
        true
    }
}

/// What stands at the front: the status of a refusal, 200 at a request, 1 where the head is to come, and 0 where nothing was
/// heard; and the target of a request.
fn front(client: &Client) -> (u16, &[u8])
    ensures { 1 < result.0 → is_answerable (current_of client.now.heard) ≡ true }
{
    match client.current() {
        Current::Nothing => (0, &[]),
        Current::More => (1, &[]),
        Current::Request(head, None) => (200, head.target),
        Current::Request(_, Some(status)) => (status, &[]),
        Current::Refuse(status) => (status, &[]),
    }
}

/// The reply begins to what is current, with this text in the head buffer. Whether it may.
fn begin(client: &mut Client, text: &[u8], reply: Begin) -> bool
    requires { is_answerable (current_of client.old.heard) ≡ true }
{
    if !is_due(client) {
        return false;
    }
    if !is_ordered(reply) {
        return false;
    }
    let is_written = client.head_room().try_extend_from_slice(text).is_ok();
    client.begin(reply);
    is_written
}

/// Answers what is current with a page. Whether it is offered.
fn say_page(client: &mut Client, cache: &Cache) -> bool
    requires { is_answerable (current_of client.old.heard) ≡ true }
{
    if !begin(client, b"page", Begin::Page) {
        return false;
    }
    if !is_next_there(client, &cache.objects) {
        return false;
    }
    let offer = client.offer(&cache.objects, &cache.pool);
    let is_page = offer == b"page".as_slice();
    let n = offer.len();
    client.took(n);
    is_page
}

fn is_due(client: &Client) -> bool
    ensures { result ≡ true → client.now.reply.stage ≡ Due }
{
    !client.has_begun()
}

fn is_ordered(reply: Begin) -> bool
    ensures { result ≡ true → IsBeginning reply }
{
    match reply {
        Begin::Page | Begin::Passed => true,
        Begin::Instance(_, next, to) => next <= to,
    }
}

fn is_next_there(client: &Client, objects: &Objects) -> bool
    ensures { result ≡ true → IfSome (next_byte client.now.reply) (λ at. is_there at.0 objects.now.instances ≡ true) }
{
    match client.next_byte() {
        None => true,
        Some((id, _)) => objects.row(id).is_some(),
    }
}

fn begin_of(reply: Reply, row: Option<ObjectId>) -> Option<Begin> {
    match reply {
        Reply::Page => Some(Begin::Page),
        Reply::Instance(next, to) => Some(Begin::Instance(row?, next, to)),
        Reply::Passed => Some(Begin::Passed),
    }
}
