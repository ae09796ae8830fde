// Where the kept fields stand in a head block.
ghost use Rattle.std.specs.Prelude.{◌≡◌, ◌+◌, ◌≤◌, length, take};
ghost use Rattle.pp_text.specs.Lines.{lines_of};
ghost use Rattle.pp_entry.specs.Places.{span_at, spans_of};

use pp_text::{FieldSpan, Fields};

/// The bytes of the status line.
const STATUS_LINE_LEN: usize = 17;

/// Writes the spans of the first so many fields, as they are spelled in a head block.
pub(crate) fn place(fields: &Fields<'_, '_>, count: usize, spans: &mut [FieldSpan])
    requires within { count ≤ length fields.now }
    requires room { count ≤ length spans.old }
    requires short { 17 + length (lines_of (take count fields.now)) ≤ 8192 }
    ensures { take count spans.new ≡ spans_of (take count fields.now) }
{
    let mut at = STATUS_LINE_LEN;
    for index in 0..count {
        let span = span_at(at, fields.name(index), fields.value(index));
        spans[index] = span;
        at = span.value_to as usize + 2;
    }
}

/// Where name and value stand in a line that begins here.
fn span_at(at: usize, name: &[u8], value: &[u8]) -> FieldSpan
    requires { at + length name.now + length value.now ≤ 8188 }
    ensures { result ≡ span_at at (name.now, value.now) }
{
    let name_to = at + name.len();
    let value_from = name_to + 2;
    FieldSpan {
        name_from: at as u32,
        name_to: name_to as u32,
        value_from: value_from as u32,
        value_to: (value_from + value.len()) as u32,
    }
}
