// A text as a transcript has it.
use pp_text::OutOfMemory;
use std::alloc::Global;

/// So many equal bytes, and more, are written once.
const LONG: usize = 32;

/// The text: quoted stretches, and bytes that come so many times, with `+` between them.
pub fn quoted(alloc: Global, bytes: &[u8]) -> Result<String, OutOfMemory> {
    let mut line = String::new(alloc);
    put_stretch(
        alloc,
        bytes.get(..stretch(bytes)).unwrap_or(bytes),
        &mut line,
    )?;
    let mut rest = bytes.get(stretch(bytes)..).unwrap_or(&[]);
    for _ in 0..bytes.len() {
        if rest.is_empty() {
            break;
        }
        let (front, behind) = rest.split_at(stretch(rest).min(rest.len()));
        line.push_str(" + ")?;
        put_stretch(alloc, front, &mut line)?;
        rest = behind;
    }
    Ok(line)
}

/// How many bytes are written as one: those that are equal at the front, if they are many, or those
/// before the next that are.
fn stretch(bytes: &[u8]) -> usize {
    let equal = equal_front(bytes);
    if equal >= LONG {
        return equal;
    }
    for at in 1..bytes.len() {
        if equal_front(bytes.get(at..).unwrap_or(&[])) >= LONG {
            return at;
        }
    }
    bytes.len()
}

/// How many bytes at the front are equal.
fn equal_front(bytes: &[u8]) -> usize {
    let Some(first) = bytes.first() else {
        return 0;
    };
    let first = *first;
    bytes
        .iter()
        .position(|byte| *byte != first)
        .unwrap_or(bytes.len())
}

fn put_stretch(alloc: Global, bytes: &[u8], line: &mut String) -> Result<(), OutOfMemory> {
    let times = bytes.len();
    if times >= LONG && equal_front(bytes) == times {
        line.push_str(format!(in alloc; "{times} * ")?.as_str())?;
        return put_quoted(alloc, bytes.get(..1).unwrap_or(&[]), line);
    }
    put_quoted(alloc, bytes, line)
}

fn put_quoted(alloc: Global, bytes: &[u8], line: &mut String) -> Result<(), OutOfMemory> {
    line.push_str("\"")?;
    for byte in bytes {
        put_byte(alloc, *byte, line)?;
    }
    line.push_str("\"")?;
    Ok(())
}

/// What is no plain letter, digit or sign stands there by its escape.
fn put_byte(alloc: Global, byte: u8, line: &mut String) -> Result<(), OutOfMemory> {
    match byte {
        b'\r' => line.push_str("\\r")?,
        b'\n' => line.push_str("\\n")?,
        b'\t' => line.push_str("\\t")?,
        b'"' => line.push_str("\\\"")?,
        b'\\' => line.push_str("\\\\")?,
        b' '..=b'~' => line.push(char::from(byte))?,
        _ => line.push_str(format!(in alloc; "\\x{byte:02x}")?.as_str())?,
    }
    Ok(())
}
