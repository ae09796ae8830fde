// The demo's pages, requests and crashes, some of them, as another program computes them by the same rule.
use pp_demo::{demo_crash, demo_script};
use pp_memworld::{Cue, Script};
use std::test::Fail;

/// Of a life: its seed and number, when its clock begins, what the clients of these numbers say, where `~` ends a line, and how it
/// crashes.
#[derive(Drop)]
struct Life {
    seed: u64,
    life: u32,
    clock: u64,
    said: [(usize, &'static str); 3],
    crash: (u64, u64),
}

const LIVES: [Life; 4] = [
    Life {
        seed: 0,
        life: 0,
        clock: 784_111_777,
        said: [
            (0, "GET http://demo/46 HTTP/1.1~Host: demo~~"),
            (1, "GET http://demo/15 HTTP/1.1~Host: demo~~"),
            (
                39,
                "GET http://demo/12 HTTP/1.1~Host: demo~Range: bytes=32746-~~",
            ),
        ],
        crash: (53, 1_944_441_337),
    },
    Life {
        seed: 1,
        life: 0,
        clock: 784_111_777,
        said: [
            (
                0,
                "GET http://demo/22 HTTP/1.1~Host: demo~Range: bytes=32381-~~",
            ),
            (
                1,
                "GET http://demo/44 HTTP/1.1~Host: demo~Range: bytes=34146-~~",
            ),
            (
                39,
                "GET http://demo/13 HTTP/1.1~Host: demo~Range: bytes=22062-29559~~",
            ),
        ],
        crash: (24, 64_670_240),
    },
    Life {
        seed: 1,
        life: 4,
        clock: 784_112_177,
        said: [
            (
                0,
                "GET http://demo/6 HTTP/1.1~Host: demo~Range: bytes=27985-~~",
            ),
            (
                1,
                "GET http://demo/35 HTTP/1.1~Host: demo~Range: bytes=15666-21769~~",
            ),
            (
                39,
                "GET http://demo/16 HTTP/1.1~Host: demo~Range: bytes=69478-~~",
            ),
        ],
        crash: (23, 783_509_565),
    },
    Life {
        seed: u64::MAX,
        life: 4,
        clock: 784_112_177,
        said: [
            (
                0,
                "GET http://demo/44 HTTP/1.1~Host: demo~Range: bytes=54337-57674~~",
            ),
            (
                1,
                "GET http://demo/8 HTTP/1.1~Host: demo~Range: bytes=77552-85496~~",
            ),
            (
                39,
                "GET http://demo/20 HTTP/1.1~Host: demo~Range: bytes=66342-~~",
            ),
        ],
        crash: (53, 1_456_633_886),
    },
];

#[test]
fn forty_clients_come_in_each_life_and_say_what_was_drawn_for_them(
    rt: HostRuntime,
) -> Result<(), Fail> {
    let alloc = rt.alloc();
    for life in LIVES {
        let script = demo_script(alloc, life.seed, life.life)?;
        assert_eq!(rt; script.cues.len(), 81);
        assert!(rt;
            matches!(script.cues.first(), Some(Cue::Tick(seconds)) if *seconds == life.clock)
        );
        for (client, said) in life.said {
            let wanted = said.replace(alloc, "~", "\r\n")?;
            assert_eq!(rt; said_by(client, &script), wanted.as_bytes());
        }
        assert_eq!(rt; demo_crash(life.seed, life.life), life.crash);
    }
    Ok(())
}

/// What the client of this number, from 0, says behind its `Connect`.
fn said_by(client: usize, script: &Script) -> &[u8] {
    let at = client.saturating_mul(2).saturating_add(1);
    let cues = script.cues.as_slice().get(at..).unwrap_or(&[]);
    match cues {
        [Cue::Connect, Cue::Say(0, text), ..] => text.as_slice(),
        _ => b"",
    }
}

#[test]
fn the_pages_are_those_of_the_seed(rt: HostRuntime) -> Result<(), Fail> {
    let pages: [(usize, &str, &str, usize, usize, &[u8]); 3] = [
        (0, "/0", "\"o0\"", 34_775, 0, &[0, 7, 14]),
        (7, "/7", "\"o7\"", 86_903, 4_095, &[210, 218]),
        (49, "/49", "\"o49\"", 55_395, 55_392, &[0x9c, 0xa3, 0xaa]),
    ];
    let script = demo_script(rt.alloc(), 1, 3)?;
    assert_eq!(rt; script.site.len(), 50);
    for (number, path, tag, len, at, bytes) in pages {
        let page = script.site.get(number).ok_or("there are 50 pages")?;
        assert_eq!(rt; page.host.as_slice(), b"demo".as_slice());
        assert_eq!(rt; page.path.as_slice(), path.as_bytes());
        assert_eq!(rt; page.tag.as_slice(), tag.as_bytes());
        let body = page.body.as_slice();
        assert_eq!(rt; body.len(), len);
        let to = at.saturating_add(bytes.len());
        assert_eq!(rt; body.get(at..to).unwrap_or(&[]), bytes);
    }
    Ok(())
}
