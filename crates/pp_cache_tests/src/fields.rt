// Fields and times of responses.
use pp_objects::Times;
use pp_text::{FieldSpan, Fields};

/// Asked for and come in the second before `Sun, 06 Nov 1994 08:49:38 GMT`.
pub const TIMES: Times = Times {
    request: 784111777,
    response: 784111777,
    initial: 0,
    may_guess: true,
};

/// `cache-control: max-age=5`.
pub fn fresher() -> Fields<'static, 'static> {
    Fields::new(b"cache-control: max-age=5", &FRESHER)
}

const FRESHER: [FieldSpan; 1] = [FieldSpan {
    name_from: 0,
    name_to: 13,
    value_from: 15,
    value_to: 24,
}];

/// Whether these fields are just these names and values.
pub fn are_lines(fields: &Fields<'_, '_>, lines: &[(&[u8], &[u8])]) -> bool {
    if fields.len() != lines.len() {
        return false;
    }
    for (index, (name, value)) in lines.iter().enumerate() {
        if index >= fields.len() || fields.name(index) != *name || fields.value(index) != *value {
            return false;
        }
    }
    true
}
