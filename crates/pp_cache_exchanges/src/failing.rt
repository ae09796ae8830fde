// Each call that can fail fails once: reads, writes, listening, dials, the file of the settings, and those of the disk.
use crate::course::{ALONE, AT_ONCE, COURSE, MAY_BE_SAID, MaySay, Reply};
use crate::saying::says_nothing;
use pp_play::{Fit, Pace, Played, first_life, fit_of};
use pp_run::Exit;
use pp_text::OutOfMemory;
use pp_world::{Cause, Happening};
use std::alloc::Global;
use std::test::Fail;

/// Where the course goes otherwise than it may, with one call that fails, whichever that is: nothing is said where it does
/// not. Behind the last call none fails.
fn unlike_with_a_failure(alloc: Global, words: &[&str]) -> Result<String, OutOfMemory> {
    let plain = first_life(alloc, words, Pace::Whole, COURSE, &[])?;
    let calls = calls_in(plain.log());
    for call in 1..calls.saturating_add(2) {
        let life = first_life(alloc, words, Pace::Whole, COURSE, &[call])?;
        let failures = if call <= calls { 1 } else { 0 };
        let said = first_unlike(alloc, &life, failures)?;
        if !said.is_empty() {
            return Ok(format!(in alloc; "call {call} of {calls} fails: {said}")?);
        }
    }
    Ok(String::new(alloc))
}

/// What goes otherwise in a life in which the outside fails so often, or nothing.
fn first_unlike(alloc: Global, life: &Played, failures: u64) -> Result<String, OutOfMemory> {
    if failures_in(life.log()) != failures {
        return Ok(String::from_str(alloc, "how often the outside fails")?);
    }
    let (exit, line) = end_of(life.log());
    if life.exit != exit || printed_in(alloc, life.log())?.as_slice() != line {
        return Ok(String::from_str(alloc, "how it ends")?);
    }
    for may_say in MAY_BE_SAID {
        if !is_said_so(life, may_say)? {
            let said = life.said(may_say.client)?;
            let said = String::from_utf8_lossy(alloc, said.as_slice())?;
            return Ok(format!(in alloc; "client {} is said {said:?}", may_say.client)?);
        }
    }
    Ok(String::new(alloc))
}

/// How many calls were made that can fail.
fn calls_in(log: &[Happening]) -> u64 {
    let mut count: u64 = 0;
    for happening in log {
        if is_call(happening) {
            count = count.saturating_add(1);
        }
    }
    count
}

/// Whether a call that can fail ends with this.
fn is_call(happening: &Happening) -> bool {
    match happening {
        Happening::Configured(_, _)
        | Happening::Listed(_)
        | Happening::Listens(_, _)
        | Happening::Heard(_, _)
        | Happening::Got(_, _)
        | Happening::NoneYet(_)
        | Happening::Said(_, _, _)
        | Happening::Asked(_, _)
        | Happening::Dialled(_, _, _)
        | Happening::Did(_, _) => true,
        _ => is_failure(happening),
    }
}

/// How often the outside failed: nobody hangs up or breaks off by himself.
fn failures_in(log: &[Happening]) -> u64 {
    let mut count: u64 = 0;
    for happening in log {
        if is_failure(happening) {
            count = count.saturating_add(1);
        }
    }
    count
}

fn is_failure(happening: &Happening) -> bool {
    matches!(
        happening,
        Happening::Configured(_, None)
            | Happening::Listed(false)
            | Happening::Listens(_, false)
            | Happening::HungUp(_)
            | Happening::Broke(_)
            | Happening::Undialled(_, _)
            | Happening::Did(_, false)
            | Happening::Unread(_)
    )
}

/// How a life ends with this log, and the line that it prints.
fn end_of(log: &[Happening]) -> (Exit, &'static [u8]) {
    for happening in log {
        match happening {
            Happening::Configured(_, None) => {
                return (Exit::NoConfig, b"polipo: cannot read the configuration\n");
            }
            Happening::Listed(false) => {
                return (Exit::NoDisk, b"polipo: cannot list the cache folder\n");
            }
            Happening::Listens(_, false) => {
                return (Exit::NoListener, b"polipo: cannot listen on port 8123\n");
            }
            _ => {}
        }
    }
    (Exit::Served, b"")
}

fn printed_in(alloc: Global, log: &[Happening]) -> Result<Vec<u8>, OutOfMemory> {
    let mut text = Vec::new(alloc);
    for happening in log {
        if let Happening::Printed(bytes) = happening {
            text.extend_from_slice(bytes.as_slice())?;
        }
    }
    Ok(text)
}

/// Whether this client is said one of the replies that it may be, whole and cut where that is; or a front of it, where the
/// client was lost; and nothing where the program does not serve.
fn is_said_so(life: &Played, may_say: &MaySay) -> Result<bool, OutOfMemory> {
    let said = life.said(may_say.client)?;
    if life.exit != Exit::Served {
        return Ok(said.is_empty());
    }
    let is_lost = is_lost(life.log(), may_say.client);
    let cause = life.cause(may_say.client);
    for reply in may_say.replies {
        if is_reply(said.as_slice(), reply, is_lost, cause) {
            return Ok(true);
        }
    }
    Ok(false)
}

fn is_reply(said: &[u8], reply: &Reply, is_lost: bool, cause: Option<Cause>) -> bool {
    match fit_of(said, reply.parts) {
        Fit::Whole if cause == reply.cause => true,
        Fit::Whole | Fit::Front => is_lost && cause.is_none(),
        Fit::Unlike => false,
    }
}

/// Whether a read or write of this client failed.
fn is_lost(log: &[Happening], c: u64) -> bool {
    log.iter().any(|happening| matches!(happening, Happening::HungUp(client) if *client == c))
}

#[test]
fn whichever_call_fails_no_wrong_byte_is_said_and_the_others_are_served(
    rt: HostRuntime,
) -> Result<(), Fail> {
    for words in [ALONE, AT_ONCE] {
        says_nothing(&rt, unlike_with_a_failure(rt.alloc(), words))?;
    }
    Ok(())
}
