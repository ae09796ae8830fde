// From a head to the rule that delimits the body behind it.
ghost use Rattle.std.specs.Prelude.{◌≡◌, codes};
ghost use Rattle.pp_text.specs.Fields.{values_of};
ghost use Rattle.pp_framing.specs.Framing.{coding_of, with_coding, length_of, is_other_length, has_no_body as has_none, framing_of, is_coded as has_coding, rule_of, request_rule_of};

use crate::body::BodyRule;
use pp_text::{Fields, read_u64, same};
use thiserror::Error;

/// Why the fields of a head delimit no body.
#[derive(Clone, Copy, Debug, PartialEq, Eq, Error)]
pub enum FramingFault {
    /// Two of its lengths differ.
    #[error("two lengths of a body differ")]
    TwoLengths,
    /// A length is no number.
    #[error("the length of a body is no number")]
    BadLength,
    /// A transfer coding is there that is not read here.
    #[error("a transfer coding is not known")]
    OtherCoding,
}

/// Why a head is none of a response with a body that can be read.
#[derive(Clone, Copy, Debug, PartialEq, Eq, Error)]
pub enum ResponseFault {
    /// Its status is below 100: it is no response (RFC 9110, section 15).
    #[error("a status is below 100")]
    NoStatus,
    /// Its fields delimit no body.
    #[error(transparent)]
    Framing(FramingFault),
}

/// The transfer codings of a body, all together.
#[derive(Clone, Copy, Debug, PartialEq, Eq)]
enum Coding {
    Identity,
    InChunks,
    Other,
}

/// How the body behind the head of a response is delimited (RFC 2616, section 4.4).
///
/// Of several faults, the status comes first, then another coding, then lengths that differ. They
/// count also where there is no body: a head that two readers may take differently is not passed on.
pub fn rule(
    head_request: bool,
    status: u16,
    fields: &Fields<'_, '_>,
) -> Result<BodyRule, ResponseFault>
    ensures { result ≡ rule_of head_request status fields.now }
{
    if status < 100 {
        return Err(ResponseFault::NoStatus);
    }
    match framing(head_request, status, fields) {
        Ok(rule) => Ok(rule),
        Err(fault) => Err(ResponseFault::Framing(fault)),
    }
}

fn framing(
    head_request: bool,
    status: u16,
    fields: &Fields<'_, '_>,
) -> Result<BodyRule, FramingFault>
    ensures { result ≡ framing_of head_request status fields.now }
{
    let coding = transfer_coding(fields);
    if coding == Coding::Other {
        return Err(FramingFault::OtherCoding);
    }
    let length = content_length(fields)?;
    Ok(if has_no_body(head_request, status) {
        BodyRule::Empty
    } else {
        match (coding, length) {
            (Coding::InChunks, _) => BodyRule::Chunked,
            (_, Some(n)) => BodyRule::Length(n),
            (_, None) => BodyRule::ToEnd,
        }
    })
}

/// How the body behind the head of a request is delimited: by its length, or there is none.
///
/// Of several faults, a coding comes first, then lengths that differ. `OtherCoding` is any coding
/// but identity, the chunked one too, and a Transfer-Encoding without items: to such a request a
/// length is required (section 10.4.12).
pub fn request_rule(fields: &Fields<'_, '_>) -> Result<BodyRule, FramingFault>
    ensures { result ≡ request_rule_of fields.now }
{
    if is_coded(fields) {
        return Err(FramingFault::OtherCoding);
    }
    match content_length(fields)? {
        Some(n) => Ok(BodyRule::Length(n)),
        None => Ok(BodyRule::Empty),
    }
}

/// Whether the body of a request is in a coding, as far as two readers may agree.
fn is_coded(fields: &Fields<'_, '_>) -> bool
    ensures { result ≡ has_coding fields.now }
{
    let has_items = fields.items(b"transfer-encoding").next().is_some();
    let is_empty = fields.has(b"transfer-encoding") && !has_items;
    transfer_coding(fields) != Coding::Identity || is_empty
}

/// Whatever its fields say, such a response has no body.
fn has_no_body(head_request: bool, status: u16) -> bool
    ensures { result ≡ has_none head_request status }
{
    head_request || status < 200 || status == 204 || status == 304
}

fn transfer_coding(fields: &Fields<'_, '_>) -> Coding
    ensures { result ≡ coding_of fields.now }
{
    let mut coding = Coding::Identity;
    for item in fields.items(b"transfer-encoding") {
        coding = joined(coding, item);
    }
    coding
}

/// The codings with one more.
fn joined(coding: Coding, item: &[u8]) -> Coding
    ensures { result ≡ with_coding coding item.now }
{
    if same(item, b"identity") {
        coding
    } else if same(item, b"chunked") && coding == Coding::Identity {
        Coding::InChunks
    } else {
        Coding::Other
    }
}

fn content_length(fields: &Fields<'_, '_>) -> Result<Option<u64>, FramingFault>
    ensures { result ≡ length_of (values_of (codes "content-length") fields.now) }
{
    let mut length = None;
    let mut is_bad = false;
    for value in fields.values(b"content-length") {
        match read_u64(value) {
            None => is_bad = true,
            Some(n) => {
                if differs(length, n) {
                    return Err(FramingFault::TwoLengths);
                }
                length = Some(n);
            }
        }
    }
    if is_bad {
        Err(FramingFault::BadLength)
    } else {
        Ok(length)
    }
}

fn differs(length: Option<u64>, n: u64) -> bool
    ensures { result ≡ is_other_length length n }
{
    match length {
        Some(other) => other != n,
        None => false,
    }
}
