// The lines of a configuration's text.
ghost use Rattle.std.specs.Prelude.{◌≡◌, ◌<◌, ◌≤◌, ◌+◌, ◌++◌, ◌∷◌, ◌==◌, length, option_map, position, IfSome};
ghost use Rattle.pp_conf.specs.Text.{assignments_of, begins_with, halves, lines_of, said_by, strip_cr, unquoted};
ghost use Rattle.pp_conf.specs.Shown.{shown_assignment, shown_halves, shown_said, lines_from, most_lines, Collects};

use crate::assignments::{Assignment, add};
use crate::fault::ConfFault;
use crate::setting::Setting;
use pp_text::trim;

/// What a line says.
pub(crate) enum Said<'a> {
    Nothing,
    Unknown,
    Assigns(Assignment<'a>),
}

/// Adds the assignments of the text.
pub(crate) fn read_text<'a>(
    text: &'a [u8],
    found: &mut Vec<Assignment<'a>>,
) -> Result<(), ConfFault>
    requires { length text.now ≤ 65536 }
    ensures { Collects found.old.items found.new.items (assignments_of text.now) result }
{
    let mut rest = Some(text);
    let mut number: u64 = 0;
    while let Some(text) = rest {
        let (line, after) = cut_line(text);
        number += 1;
        match said_by(line) {
            Said::Nothing => {}
            Said::Unknown => return Err(ConfFault::BadLine(number)),
            Said::Assigns(assignment) => add(found, assignment)?,
        }
        rest = after;
    }
    Ok(())
}

/// The first line, and the text behind its end where it has one.
fn cut_line(text: &[u8]) -> (&[u8], Option<&[u8]>)
    ensures lines { lines_of text.now ≡ result.0.now ∷ lines_from result.1 }
    ensures shorter { most_lines result.1 ≤ length text.now }
{
    match place_of(text, b'\n') {
        Some(at) => (strip_cr(&text[..at]), Some(&text[at + 1..])),
        None => (text, None),
    }
}

fn strip_cr(line: &[u8]) -> &[u8]
    ensures { result.now ≡ strip_cr line.now }
{
    if line.len() > 0 && line[line.len() - 1] == b'\r' {
        &line[..line.len() - 1]
    } else {
        line
    }
}

fn said_by(line: &[u8]) -> Said<'_>
    ensures { shown_said result ≡ said_by line.now }
{
    let text = trim(line);
    if text.is_empty() || text[0] == b'#' {
        return Said::Nothing;
    }
    match halves(text) {
        Some((name, value)) => match Setting::named(trim(name)) {
            Some(setting) => Said::Assigns(Assignment {
                setting,
                value: unquoted(trim(value)),
            }),
            None => Said::Unknown,
        },
        None => Said::Unknown,
    }
}

/// What stands before and behind the first `=`.
pub(crate) fn halves(text: &[u8]) -> Option<(&[u8], &[u8])>
    ensures { option_map shown_halves result ≡ halves text.now }
{
    match place_of(text, b'=') {
        Some(at) => Some((&text[..at], &text[at + 1..])),
        None => None,
    }
}

/// The value without double quotes round it.
fn unquoted(text: &[u8]) -> &[u8]
    ensures { result.now ≡ unquoted text.now }
{
    let len = text.len();
    if 2 <= len && text[0] == b'"' && text[len - 1] == b'"' {
        &text[1..len - 1]
    } else {
        text
    }
}

/// The first place of this byte.
fn place_of(text: &[u8], byte: u8) -> Option<usize>
    ensures place { result ≡ position (λ b. b == byte) text.now }
    ensures within { IfSome result (λ at. at < length text.now) }
{
    text.iter().position(|b| *b == byte)
}
