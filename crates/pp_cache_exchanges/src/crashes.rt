// The machine stops behind each happening, and what was kept is there.
use crate::course::{ALONE, AT_ONCE, COURSE};
use crate::saying::says_nothing;
use pp_play::{Act, Fit, Pace, Part, Played, T, first_life, fit_of, next_life};
use pp_run::Exit;
use pp_text::OutOfMemory;
use pp_world::{Happening, Remark};
use std::alloc::{AllocError, Global};
use std::test::Fail;

/// Of what a crash leaves in doubt: all that was, all that was to be, and bytes that nobody wrote.
const CHOICES: &[u64] = &[0, 1, 2];

/// Ten seconds behind the begin of the course two clients want what is kept, the whole page and its first chunk.
const BEHIND: &[Act<'static>] = &[
    Act::Tick(T + 10),
    Act::Connect,
    Act::Say(
        0,
        b"GET http://h/b HTTP/1.1\r\nHost: h\r\nCache-Control: only-if-cached\r\n\r\n",
    ),
    Act::Connect,
    Act::Say(
        0,
        b"GET http://h/b HTTP/1.1\r\nHost: h\r\nCache-Control: only-if-cached\r\nRange: bytes=0-4095\r\n\r\n",
    ),
];

const PAGE_504: &[u8] =
    b"HTTP/1.1 504 Gateway Timeout\r\ncontent-type: text/plain\r\ncontent-length: 20\r\nconnection: keep-alive\r\n\r\n504 Gateway Timeout\n";

/// Of a version so many bytes of so many.
#[derive(Clone, Copy)]
struct Kept<'a> {
    tag: &'a [u8],
    length: u64,
    extent: u64,
}

/// What two clients may be said, and what that shows to be kept.
struct Shown {
    kept: Option<Kept<'static>>,
    whole: &'static [Part<'static>],
    first: &'static [Part<'static>],
}

const SHOWN: &[Shown] = &[
    Shown {
        kept: None,
        whole: &[Part::Text(PAGE_504)],
        first: &[Part::Text(PAGE_504)],
    },
    Shown {
        kept: Some(Kept {
            tag: b"\"x\"",
            length: 12_288,
            extent: 4_096,
        }),
        whole: &[Part::Text(PAGE_504)],
        first: &[
            Part::Text(
                b"HTTP/1.1 206 Partial Content\r\netag: \"x\"\r\ndate: Sun, 06 Nov 1994 08:49:37 GMT\r\ncache-control: max-age=60\r\nage: 10\r\nvia: 1.1 polipo\r\ncontent-range: bytes 0-4095/12288\r\ncontent-length: 4096\r\nconnection: keep-alive\r\n\r\n",
            ),
            Part::Fill(b'a', 4_096),
        ],
    },
    Shown {
        kept: Some(Kept {
            tag: b"\"y\"",
            length: 3,
            extent: 3,
        }),
        whole: &[Part::Text(
            b"HTTP/1.1 200 OK\r\netag: \"y\"\r\ndate: Sun, 06 Nov 1994 08:49:37 GMT\r\ncache-control: max-age=60\r\nage: 10\r\nvia: 1.1 polipo\r\ncontent-length: 3\r\nconnection: keep-alive\r\n\r\nnew",
        )],
        first: &[Part::Text(
            b"HTTP/1.1 206 Partial Content\r\netag: \"y\"\r\ndate: Sun, 06 Nov 1994 08:49:37 GMT\r\ncache-control: max-age=60\r\nage: 10\r\nvia: 1.1 polipo\r\ncontent-range: bytes 0-2/3\r\ncontent-length: 3\r\nconnection: keep-alive\r\n\r\nnew",
        )],
    },
];

/// Behind which happening, and by which choice, the life behind a crash says anything but one version's bytes, or a page that
/// nothing is kept, or does not find what was kept: nothing is said where there is none.
fn unlike_behind_crashes(alloc: Global, words: &[&str]) -> Result<String, OutOfMemory> {
    let life = first_life(alloc, words, Pace::Whole, COURSE, &[])?;
    for at in 0..life.log().len().saturating_add(1) {
        for choice in CHOICES {
            let next = next_life(alloc, words, Pace::Whole, BEHIND, &life, at, *choice)?;
            let part = first_unlike(alloc, &next, at)?;
            if !part.is_empty() {
                return Ok(format!(in alloc; "a crash behind {at} by {choice}: {part}")?);
            }
        }
    }
    Ok(String::new(alloc))
}

/// What goes otherwise in the life behind a crash behind so many happenings, or nothing.
fn first_unlike(alloc: Global, life: &Played, at: usize) -> Result<&'static str, OutOfMemory> {
    let log = life.log();
    let (before, behind) = log.split_at(at.min(log.len()));
    if life.exit != Exit::Served || is_dialled(behind) {
        return Ok("an exit, or a dial");
    }
    match (shown_in(alloc, life, behind)?, kept_in(before)) {
        (None, _) => Ok("what is said"),
        (Some(_), None) => Ok(""),
        (Some(shown), Some(kept)) if finds(shown, kept) => Ok(""),
        (Some(_), Some(_)) => Ok("what was kept is not found"),
    }
}

/// Whether what is said shows that this is kept.
fn finds(shown: &Shown, kept: Kept<'_>) -> bool {
    match shown.kept {
        Some(found) => {
            found.tag == kept.tag && found.length == kept.length && found.extent == kept.extent
        }
        None => false,
    }
}

/// Of what may be said that which is.
fn shown_in(
    alloc: Global,
    life: &Played,
    behind: &[Happening],
) -> Result<Option<&'static Shown>, OutOfMemory> {
    let mut clients = Vec::new(alloc);
    for happening in behind {
        if let Happening::Opened(client) = happening {
            clients.push(*client).map_err(AllocError::from)?;
        }
    }
    let [one, other] = clients.as_slice() else {
        return Ok(None);
    };
    let whole = life.said(*one)?;
    let first = life.said(*other)?;
    for shown in SHOWN {
        if is_whole(whole.as_slice(), shown.whole) && is_whole(first.as_slice(), shown.first) {
            return Ok(Some(shown));
        }
    }
    Ok(None)
}

fn is_whole(said: &[u8], parts: &[Part<'_>]) -> bool {
    fit_of(said, parts) == Fit::Whole
}

fn is_dialled(log: &[Happening]) -> bool {
    log.iter().any(|happening| {
        matches!(
            happening,
            Happening::Dialled(_, _, _) | Happening::Undialled(_, _)
        )
    })
}

/// What was kept last, and is not gone.
fn kept_in(log: &[Happening]) -> Option<Kept<'_>> {
    let mut kept = None;
    for happening in log {
        match happening {
            Happening::Noted(Remark::Kept(_, tag, length, extent)) => {
                kept = Some(Kept {
                    tag: tag.as_slice(),
                    length: *length,
                    extent: *extent,
                });
            }
            Happening::Noted(Remark::Gone(_)) => kept = None,
            _ => {}
        }
    }
    kept
}

#[test]
fn whenever_it_crashes_what_was_kept_is_there_and_nothing_else(
    rt: HostRuntime,
) -> Result<(), Fail> {
    for words in [ALONE, AT_ONCE] {
        says_nothing(&rt, unlike_behind_crashes(rt.alloc(), words))?;
    }
    Ok(())
}
