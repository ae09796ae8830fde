// What the origin has.
ghost use Rattle.std.specs.Prelude.{◌≡◌, ◌<◌, ◌+◌, ◌^◌, ◌++◌, IfOk, OnOk, decimal};
ghost use Rattle.pp_demo.specs.Generator.{state_behind};
ghost use Rattle.pp_demo.specs.Pages.{byte_at, bytes_up_to, last_offsets, page_of, pages_up_to};

use crate::generator::Generator;
use itoa::Buffer;
use pp_memworld::Page;
use pp_text::{Octets, OutOfMemory};
use std::alloc::{AllocError, Global};

/// The host of all pages.
const HOST: &[u8] = b"demo";

/// So many pages there are.
pub(crate) const PAGES: usize = 50;

/// A page has at most so many bytes.
const MOST_BYTES: u32 = 100_000;

/// The offset of the last byte of each page.
pub(crate) type LastOffsets = [u32; PAGES];

/// Draws how long the pages are.
#[tactic(auto, using(crate::proofs::Steps::lengths))]
pub(crate) fn draw_lengths(generator: &mut Generator) -> LastOffsets
    ensures state { generator.new.state ≡ state_behind 50 generator.old.state }
    ensures lengths { result ≡ last_offsets 50 generator.old.state }
{
    let mut last_offsets = [0; PAGES];
    for last in last_offsets.iter_mut() {
        *last = generator.draw_below(MOST_BYTES);
    }
    last_offsets
}

/// The pages of these lengths.
#[tactic(auto, using(crate::proofs::Steps::pages))]
pub(crate) fn site_of(alloc: Global, last_offsets: &LastOffsets) -> Result<Vec<Page>, OutOfMemory>
    ensures { IfOk result (λ site. site.items ≡ pages_up_to 50 last_offsets.now) }
{
    let mut site = Vec::new(alloc);
    for (number, last) in last_offsets.iter().enumerate() {
        let page = page_of(alloc, number as u8, *last)?;
        site.push(page).map_err(AllocError::from)?;
    }
    Ok(site)
}

/// The page of this number.
fn page_of(alloc: Global, number: u8, last: u32) -> Result<Page, OutOfMemory>
    ensures { IfOk result (λ page. page ≡ page_of number last) }
{
    Ok(Page {
        host: Octets::copy(alloc, HOST)?,
        path: numbered(alloc, b"/", u64::from(number), b"")?,
        tag: numbered(alloc, b"\"o", u64::from(number), b"\"")?,
        body: body_of(alloc, number, last)?,
    })
}

/// A text with a number in its midst.
fn numbered(alloc: Global, before: &[u8], number: u64, behind: &[u8]) -> Result<Octets, OutOfMemory>
    ensures { IfOk result (λ text. text ≡ before.now ++ decimal number ++ behind.now) }
{
    let mut text = Octets::copy(alloc, before)?;
    put_number(number, &mut text)?;
    text.append(behind)?;
    Ok(text)
}

/// Adds the digits of a number.
pub(crate) fn put_number(number: u64, text: &mut Octets) -> Result<(), OutOfMemory>
    ensures { OnOk result (text.new ≡ text.old ++ decimal number) }
{
    text.append(Buffer::new().format(number).as_bytes())
}

/// The bytes of the page of this number.
#[tactic(auto, using(crate::proofs::Steps::bytes))]
fn body_of(alloc: Global, number: u8, last: u32) -> Result<Octets, OutOfMemory>
    ensures { IfOk result (λ body. body ≡ bytes_up_to number (last + 1)) }
{
    let mut bytes = Vec::new(alloc);
    let len = u64::from(last) + 1;
    for offset in 0..len {
        let byte = byte_at(number, offset);
        bytes.push(byte).map_err(AllocError::from)?;
    }
    Octets::copy(alloc, bytes.as_slice())
}

/// The byte at an offset of the page of this number.
fn byte_at(number: u8, offset: u64) -> u8
    requires { offset < 2 ^ 32 }
    ensures { result ≡ byte_at number offset }
{
    let sum = 31 * u64::from(number) + 7 * offset + offset / 4096;
    (sum % 256) as u8
}
