// A happening as a line of a transcript.
use crate::quoting::quoted;
use pp_text::{Octets, OutOfMemory};
use pp_world::{Cause, Decision, DiskOp, Happening, Image, Name, Remark, Wants};
use std::alloc::Global;

/// The line of a happening.
pub(crate) fn spelled(alloc: Global, happening: &Happening) -> Result<String, OutOfMemory> {
    match happening {
        Happening::Woke(image) => woke(alloc, image),
        Happening::Waits(wants) => waits(alloc, wants),
        Happening::Clock(seconds) => numbered(alloc, "clock", *seconds),
        Happening::Opened(id) => numbered(alloc, "opened", *id),
        Happening::CanRead(id) => numbered(alloc, "can-read", *id),
        Happening::CanWrite(id) => numbered(alloc, "can-write", *id),
        Happening::Heard(id, bytes) => with_text(alloc, "heard", *id, bytes),
        Happening::HungUp(id) => numbered(alloc, "hung-up", *id),
        Happening::Said(id, offered, bytes) => said(alloc, *id, *offered, bytes),
        Happening::Shut(id) => numbered(alloc, "shut", *id),
        Happening::Dialled(id, host, port) => {
            let host = quoted(alloc, host.as_slice())?;
            Ok(format!(in alloc; "dialled {id} {host} {port}")?)
        }
        Happening::Undialled(host, port) => {
            let host = quoted(alloc, host.as_slice())?;
            Ok(format!(in alloc; "undialled {host} {port}")?)
        }
        Happening::Reached(id) => numbered(alloc, "reached", *id),
        Happening::Ended(id) => numbered(alloc, "ended", *id),
        Happening::Broke(id) => numbered(alloc, "broke", *id),
        Happening::Asked(id, bytes) => with_text(alloc, "asked", *id, bytes),
        Happening::Got(id, bytes) => with_text(alloc, "got", *id, bytes),
        Happening::Dropped(id) => numbered(alloc, "dropped", *id),
        Happening::NoneYet(id) => numbered(alloc, "none-yet", *id),
        Happening::Began(op) => operation(alloc, "began", op),
        Happening::Did(op, is_done) => operation(
            alloc,
            if *is_done { "did" } else { "failed" },
            op,
        ),
        Happening::Unread(name) => text(alloc, "unread", name),
        Happening::Noted(remark) => remarked(alloc, remark),
        Happening::Rooted(folder) => text(alloc, "rooted", folder.as_slice()),
        Happening::Listed(is_listed) => plain(
            alloc,
            if *is_listed { "listed" } else { "unlisted" },
        ),
        Happening::Listens(port, is_listening) => {
            let word = if *is_listening {
                "listens"
            } else {
                "listens-not"
            };
            numbered(alloc, word, u64::from(*port))
        }
        Happening::Configured(name, found) => configured(alloc, name, found.as_ref()),
        Happening::Printed(bytes) => text(alloc, "printed", bytes.as_slice()),
        Happening::Stopped => plain(alloc, "stopped"),
    }
}

fn plain(alloc: Global, word: &str) -> Result<String, OutOfMemory> {
    Ok(String::from_str(alloc, word)?)
}

fn numbered(alloc: Global, word: &str, number: u64) -> Result<String, OutOfMemory> {
    Ok(format!(in alloc; "{word} {number}")?)
}

fn text(alloc: Global, word: &str, bytes: &[u8]) -> Result<String, OutOfMemory> {
    let bytes = quoted(alloc, bytes)?;
    Ok(format!(in alloc; "{word} {bytes}")?)
}

fn with_text(alloc: Global, word: &str, id: u64, bytes: &Octets) -> Result<String, OutOfMemory> {
    let bytes = quoted(alloc, bytes.as_slice())?;
    Ok(format!(in alloc; "{word} {id} {bytes}")?)
}

/// What was offered is told where not all of it was taken.
fn said(alloc: Global, id: u64, offered: u64, bytes: &Octets) -> Result<String, OutOfMemory> {
    let mut line = with_text(alloc, "said", id, bytes)?;
    if bytes.as_slice().len() as u64 != offered {
        line.push_str(format!(in alloc; " of {offered}")?.as_str())?;
    }
    Ok(line)
}

fn configured(alloc: Global, name: &Octets, found: Option<&Octets>) -> Result<String, OutOfMemory> {
    let name = quoted(alloc, name.as_slice())?;
    match found {
        Some(found) => {
            let found = quoted(alloc, found.as_slice())?;
            Ok(format!(in alloc; "configured {name} as {found}")?)
        }
        None => Ok(format!(in alloc; "unconfigured {name}")?),
    }
}

/// Each file with what it holds.
fn woke(alloc: Global, image: &Image) -> Result<String, OutOfMemory> {
    let mut line = String::from_str(alloc, "woke")?;
    let mut last: Option<Name> = None;
    // A folder has at most so many files that a listing shows.
    for _ in 0..65_536 {
        let Some(name) = image.next_name(last.as_ref()) else {
            break;
        };
        if let Some(file) = image.get(name) {
            let name = quoted(alloc, name)?;
            let file = quoted(alloc, file.as_slice())?;
            line.push_str(format!(in alloc; " file {name} of {file}")?.as_str())?;
        }
        last = Some(*name);
    }
    Ok(line)
}

fn waits(alloc: Global, wants: &Wants) -> Result<String, OutOfMemory> {
    let mut line = plain(alloc, if wants.accept { "waits" } else { "waits shut" })?;
    put_numbers(alloc, " read", wants.read.as_slice(), &mut line)?;
    put_numbers(alloc, " write", wants.write.as_slice(), &mut line)?;
    Ok(line)
}

/// Adds the word and the numbers, if there are any.
fn put_numbers(
    alloc: Global,
    word: &str,
    numbers: &[u64],
    line: &mut String,
) -> Result<(), OutOfMemory> {
    if !numbers.is_empty() {
        line.push_str(word)?;
    }
    for number in numbers {
        line.push_str(format!(in alloc; " {number}")?.as_str())?;
    }
    Ok(())
}

fn operation(alloc: Global, word: &str, op: &DiskOp) -> Result<String, OutOfMemory> {
    Ok(match op {
        DiskOp::Draft(bytes) => {
            let bytes = quoted(alloc, bytes.as_slice())?;
            format!(in alloc; "{word} draft {bytes}")?
        }
        DiskOp::SyncDraft => format!(in alloc; "{word} sync-draft")?,
        DiskOp::Publish(name) => {
            let name = quoted(alloc, name)?;
            format!(in alloc; "{word} publish {name}")?
        }
        DiskOp::Write(name, at, bytes) => {
            let name = quoted(alloc, name)?;
            let bytes = quoted(alloc, bytes.as_slice())?;
            format!(in alloc; "{word} write {name} {at} {bytes}")?
        }
        DiskOp::Sync(name) => {
            let name = quoted(alloc, name)?;
            format!(in alloc; "{word} sync {name}")?
        }
        DiskOp::Remove(name) => {
            let name = quoted(alloc, name)?;
            format!(in alloc; "{word} remove {name}")?
        }
    })
}

fn remarked(alloc: Global, remark: &Remark) -> Result<String, OutOfMemory> {
    match remark {
        Remark::Taken(client, request, decision) => taken(alloc, *client, *request, *decision),
        Remark::Cut(client, cause) => {
            let cause = cause_word(*cause);
            Ok(format!(in alloc; "cut {client} {cause}")?)
        }
        Remark::Kept(key, tag, len, extent) => version(alloc, "kept", key, tag, *len, *extent),
        Remark::Gone(key) => text(alloc, "gone", key.as_slice()),
        Remark::Forgotten(key) => text(alloc, "forgotten", key.as_slice()),
        Remark::Evicted(key, tag, len, chunk) => version(alloc, "evicted", key, tag, *len, *chunk),
        Remark::Loaded(key, tag, len, chunk) => version(alloc, "loaded", key, tag, *len, *chunk),
    }
}

fn taken(
    alloc: Global,
    client: u64,
    request: u64,
    decision: Decision,
) -> Result<String, OutOfMemory> {
    let mut line = format!(in alloc; "taken {client} {request} ")?;
    match decision {
        Decision::Refuse(status) => {
            line.push_str(format!(in alloc; "refuse {status}")?.as_str())?
        }
        Decision::Hit(from, to) => line.push_str(format!(in alloc; "hit {from} {to}")?.as_str())?,
        Decision::Part(from, to) => line.push_str(format!(in alloc; "part {from} {to}")?.as_str())?,
        Decision::Head => line.push_str("head")?,
        Decision::NotModified => line.push_str("not-modified")?,
        Decision::Unsatisfiable => line.push_str("unsatisfiable")?,
        Decision::Relay => line.push_str("relay")?,
        Decision::Validate => line.push_str("validate")?,
        Decision::Fetch => line.push_str("fetch")?,
        Decision::Pass => line.push_str("pass")?,
    }
    Ok(line)
}

fn cause_word(cause: Cause) -> &'static str {
    match cause {
        Cause::Superseded => "superseded",
        Cause::Origin => "origin",
        Cause::Short => "short",
        Cause::Idle => "idle",
        Cause::Memory => "memory",
        Cause::Stop => "stop",
    }
}

fn version(
    alloc: Global,
    word: &str,
    key: &Octets,
    tag: &Octets,
    len: u64,
    number: u64,
) -> Result<String, OutOfMemory> {
    let key = quoted(alloc, key.as_slice())?;
    let tag = quoted(alloc, tag.as_slice())?;
    Ok(format!(in alloc; "{word} {key} {tag} {len} {number}")?)
}
