// Where the fields of a head are.
ghost use Rattle.std.specs.Prelude.{◌≡◌, ◌≤◌, length, map, take, All};
ghost use Rattle.httparse.specs.Spans.{IsHeaderWithin};
ghost use Rattle.pp_head.specs.Shown.{field_span};

use crate::limits::MAX_FIELDS;
use httparse::spans::{EMPTY_HEADER_SPAN, HeaderSpan};
use pp_text::FieldSpan;

/// Room for the spans of one head's fields. Each call of a reader writes over it, and none asks what
/// it held before.
#[derive(Drop)]
pub struct Scratch {
    pub(crate) headers: [HeaderSpan; MAX_FIELDS],
    pub(crate) fields: [FieldSpan; MAX_FIELDS],
}

impl Scratch {
    pub fn new() -> Scratch {
        Scratch {
            headers: [EMPTY_HEADER_SPAN; MAX_FIELDS],
            fields: [FieldSpan::EMPTY; MAX_FIELDS],
        }
    }
}

/// Writes the spans of these headers to the front of `fields`.
pub(crate) fn write_fields(headers: &[HeaderSpan], fields: &mut [FieldSpan])
    requires room { length headers.now ≤ length fields.old }
    requires small { All (IsHeaderWithin 16384) headers.now }
    ensures { take (length headers.now) fields.new ≡ map field_span headers.now }
{
    for (i, header) in headers.iter().enumerate() {
        fields[i] = FieldSpan {
            name_from: header.name.start as u32,
            name_to: header.name.end as u32,
            value_from: header.value.start as u32,
            value_to: header.value.end as u32,
        };
    }
}
