// Addresses of IPv4, and ranges of them.
ghost use Rattle.std.specs.Prelude.{◌≡◌, ◌≤◌, ◌&&◌, IfOk, length, nat_le};
ghost use Rattle.std.specs.List.{list_all};
ghost use Rattle.pp_text.specs.Lists.{items_of};
ghost use Rattle.pp_conf.specs.Addresses.{address_of, are_ranges, is_local, is_range, loopback, range_at, range_of, ranges_of};
ghost use Rattle.pp_conf.specs.Conf.{shuts_all_out};

use crate::numbers::number_between;
use pp_text::{Items, cut};
use pp_world::AddressRange;
use std::alloc::{AllocError, Global};
use std::net::Ipv4Addr;

/// The address of this machine that it listens at if none is said.
pub(crate) const LOCALHOST: u32 = 0x7f00_0001;

/// Where no other machine's address stands.
pub(crate) const LOOPBACK: AddressRange = AddressRange {
    address: 0x7f00_0000,
    bits: 8,
};

/// The most ranges of clients.
const MAX_RANGES: usize = 16;

/// The address that the text is.
pub(crate) fn address_of(text: &[u8]) -> Option<u32>
    ensures { result ≡ address_of text.now }
{
    match Ipv4Addr::parse_ascii(text) {
        Ok(address) => Some(address.to_bits()),
        Err(_) => None,
    }
}

/// The range that the text is: an address, or one with the length of its prefix.
fn range_of(text: &[u8]) -> Option<AddressRange>
    ensures { result ≡ range_of text.now }
{
    match cut(text, b'/') {
        Some((address, bits)) => {
            let address = address_of(address)?;
            let bits = number_between(0, 32, bits)?;
            range_at(address, bits as u32)
        }
        None => Some(AddressRange {
            address: address_of(text)?,
            bits: 32,
        }),
    }
}

/// The range of this prefix, if no bit is set behind it.
fn range_at(address: u32, bits: u32) -> Option<AddressRange>
    requires { bits ≤ 32 }
    ensures { result ≡ range_at address bits }
{
    let size = 2_u64.pow(32 - bits);
    if u64::from(address) / size * size == u64::from(address) {
        Some(AddressRange { address, bits })
    } else {
        None
    }
}

/// Whether the text is a list of ranges.
pub(crate) fn are_ranges(text: &[u8]) -> bool
    ensures { result ≡ are_ranges text.now }
{
    are_few(text) && has_ranges(text)
}

/// Whether the list has an item, and no more than there may be.
fn are_few(text: &[u8]) -> bool
    ensures { result ≡ (nat_le 1 (length (items_of text.now)) && nat_le (length (items_of text.now)) 16) }
{
    let mut count = 0;
    for _item in Items::new(text) {
        if count == MAX_RANGES {
            return false;
        }
        count += 1;
    }
    1 <= count
}

/// Whether each item is a range.
fn has_ranges(text: &[u8]) -> bool
    ensures { result ≡ list_all is_range (items_of text.now) }
{
    for item in Items::new(text) {
        if range_of(item).is_none() {
            return false;
        }
    }
    true
}

/// The ranges of the text.
pub(crate) fn ranges_of(alloc: Global, text: &[u8]) -> Result<Vec<AddressRange>, AllocError>
    ensures { IfOk result (λ ranges. ranges.items ≡ ranges_of text.now) }
{
    let mut ranges = Vec::new(alloc);
    for item in Items::new(text) {
        if let Some(range) = range_of(item) {
            ranges.push(range)?;
        }
    }
    Ok(ranges)
}

/// Whether each address of the range is one of this machine alone.
fn is_local(range: AddressRange) -> bool
    ensures { result ≡ is_local range }
{
    LOOPBACK.bits <= range.bits && LOOPBACK.has(range.address)
}

/// Whether other machines can reach this address, and the text allows none of them.
pub(crate) fn shuts_all_out(address: u32, text: &[u8]) -> bool
    ensures { result ≡ shuts_all_out address (ranges_of text.now) }
{
    !LOOPBACK.has(address) && are_local(text)
}

/// Whether the ranges of the text are of this machine alone.
fn are_local(text: &[u8]) -> bool
    ensures { result ≡ list_all is_local (ranges_of text.now) }
{
    for item in Items::new(text) {
        if let Some(range) = range_of(item) {
            if !is_local(range) {
                return false;
            }
        }
    }
    true
}
