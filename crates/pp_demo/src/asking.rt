// What the clients ask for.
ghost use Rattle.std.specs.Prelude.{◌≡◌, ◌<◌, ◌≤◌, ◌^◌, ◌++◌, IfOk, OnOk};
ghost use Rattle.pp_demo.specs.Asking.{behind_client, behind_clients, cues_of_client, cues_of_clients, range_behind, range_line, request_of, request_text};
ghost use Rattle.pp_demo.specs.Generator.{state_behind};

use crate::generator::Generator;
use crate::pages::{LastOffsets, PAGES, put_number};
use pp_memworld::Cue;
use pp_text::{Octets, OutOfMemory};
use std::alloc::{AllocError, Global};

/// So many clients come in each life.
pub(crate) const CLIENTS: u32 = 40;

/// A span has at most so many bytes.
const MOST_SPAN: u32 = 10_000;

/// What a request asks for.
#[derive(Clone, Copy, Debug)]
pub(crate) enum Range {
    Whole,
    /// What begins at this offset.
    From(u64),
    /// The bytes from the one offset to the other, both in.
    Between(u64, u64),
}

/// A request for the page of this number.
#[derive(Clone, Copy, Debug)]
pub(crate) struct Request {
    pub page: u32,
    pub range: Range,
}

/// Draws a request for one of the pages.
pub(crate) fn draw_request(generator: &mut Generator, last_offsets: &LastOffsets) -> Request
    ensures state { generator.new.state ≡ behind_client generator.old.state }
    ensures request { result ≡ request_of last_offsets.now generator.old.state }
{
    let page = generator.draw_below(PAGES as u32);
    let form = generator.draw_below(3);
    let len = u64::from(last_offsets[page as usize]) + 1;
    let range = draw_range(generator, form, len);
    Request { page, range }
}

/// Draws which bytes of a page of this length are asked for: all, those from an offset on, or a span.
#[tactic(auto, using(crate::proofs::Steps::values))]
fn draw_range(generator: &mut Generator, form: u32, len: u64) -> Range
    requires form { form < 3 }
    requires some { 0 < len }
    requires short { len ≤ 2 ^ 32 }
    ensures state { generator.new.state ≡ state_behind form generator.old.state }
    ensures range { result ≡ range_behind len form generator.old.state }
{
    match form {
        0 => Range::Whole,
        1 => Range::From(u64::from(generator.draw()) % len),
        _ => {
            let from = u64::from(generator.draw()) % len;
            let more = u64::from(generator.draw_below(MOST_SPAN));
            Range::Between(from, from + more)
        }
    }
}

/// Draws what a client asks for, and leaves it.
#[tactic(auto, using(crate::proofs::Steps::values))]
pub(crate) fn skip_request(generator: &mut Generator)
    ensures { generator.new.state ≡ behind_client generator.old.state }
{
    let _ = generator.draw();
    let more = generator.draw_below(3);
    for _value in 0..more {
        let _ = generator.draw();
    }
}

/// Draws what the clients of a life ask for, and leaves it.
#[tactic(auto, using(crate::proofs::Steps::clients))]
pub(crate) fn skip_clients(generator: &mut Generator)
    ensures { generator.new.state ≡ behind_clients 40 generator.old.state }
{
    for _client in 0..CLIENTS {
        skip_request(generator);
    }
}

/// Adds the cues of the clients of a life.
pub(crate) fn put_clients(
    alloc: Global,
    generator: &mut Generator,
    last_offsets: &LastOffsets,
    cues: &mut Vec<Cue>,
) -> Result<(), OutOfMemory>
    ensures { OnOk result (cues.new.items ≡ cues.old.items ++ cues_of_clients 40 last_offsets.now generator.old.state) }
{
    for _client in 0..CLIENTS {
        put_client(alloc, generator, last_offsets, cues)?;
    }
    Ok(())
}

/// Adds the cues of a client: it connects, and says its request.
#[tactic(auto, using(crate::proofs::Steps::client_put))]
fn put_client(
    alloc: Global,
    generator: &mut Generator,
    last_offsets: &LastOffsets,
    cues: &mut Vec<Cue>,
) -> Result<(), OutOfMemory>
    ensures state { generator.new.state ≡ behind_client generator.old.state }
    ensures cues { OnOk result (cues.new.items ≡ cues.old.items ++ cues_of_client last_offsets.now generator.old.state) }
{
    let request = draw_request(generator, last_offsets);
    let text = text_of(alloc, request)?;
    cues.push(Cue::Connect).map_err(AllocError::from)?;
    cues.push(Cue::Say(0, text)).map_err(AllocError::from)?;
    Ok(())
}

/// The request as its client says it.
fn text_of(alloc: Global, request: Request) -> Result<Octets, OutOfMemory>
    ensures { IfOk result (λ text. text ≡ request_text request) }
{
    let mut text = Octets::copy(alloc, b"GET http://demo/")?;
    put_number(u64::from(request.page), &mut text)?;
    text.append(b" HTTP/1.1\r\nHost: demo\r\n")?;
    put_range(request.range, &mut text)?;
    text.append(b"\r\n")?;
    Ok(text)
}

/// Adds the field of a range, where there is one.
fn put_range(range: Range, text: &mut Octets) -> Result<(), OutOfMemory>
    ensures { OnOk result (text.new ≡ text.old ++ range_line range) }
{
    match range {
        Range::Whole => Ok(()),
        Range::From(from) => {
            text.append(b"Range: bytes=")?;
            put_number(from, text)?;
            text.append(b"-\r\n")
        }
        Range::Between(from, to) => {
            text.append(b"Range: bytes=")?;
            put_number(from, text)?;
            text.append(b"-")?;
            put_number(to, text)?;
            text.append(b"\r\n")
        }
    }
}
