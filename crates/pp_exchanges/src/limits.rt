// Many clients and connections at once, slow clients, and long bodies.
use pp_play::{
    Act, Exchange, GET, PAGE_400, PAGE_502, PASSED, Pace, Part, REPLY, REPLY_HELD, RESPONSE, Step,
    T, Wanted, asking, play, unlike, unlike_at, with_repeated,
};
use pp_run::Exit;
use pp_text::OutOfMemory;
use std::alloc::Global;
use std::test::Fail;

const SLOW: &[Exchange<'static>] = &[
    Exchange {
        name: "a client takes few bytes at a time",
        acts: &[
            Act::Connect,
            Act::Window(1, 0),
            Act::Say(1, GET),
            Act::Reach(2),
            Act::Answer(2, RESPONSE),
            Act::Window(1, 1),
            Act::Window(1, 152),
            Act::Window(1, 1),
            Act::Window(1, 2),
            Act::Window(1, 3),
        ],
        wanted: &[Wanted::Said(1, &[Part::Text(REPLY)])],
    },
    Exchange {
        name: "an origin takes few bytes at a time",
        acts: &[
            Act::Connect,
            Act::Say(
                1,
                b"PUT http://h/a HTTP/1.1\r\nContent-Length: 5\r\n\r\nabcde",
            ),
            Act::Window(2, 0),
            Act::Reach(2),
            Act::Window(2, 1),
            Act::Window(2, 62),
            Act::Window(2, 1),
            Act::Window(2, 1),
            Act::Window(2, 9),
            Act::Answer(2, RESPONSE),
        ],
        wanted: &[
            Wanted::Asked(
                2,
                &[
                    b"PUT /a HTTP/1.1\r\nhost: h\r\ncontent-length: 5\r\nvia: 1.1 polipo\r\n\r\nabcde",
                ],
            ),
            Wanted::Said(1, &[Part::Text(PASSED)]),
        ],
    },
    Exchange {
        name: "clients do not wait for one another, also not for one that reads the same page",
        acts: &[
            Act::Connect,
            Act::Say(1, b"GET http://slow/a HTTP/1.1\r\nHo"),
            Act::Connect,
            Act::Window(2, 3),
            Act::Say(2, GET),
            Act::Reach(3),
            Act::Answer(3, RESPONSE),
            Act::Connect,
            Act::Say(4, b"GET http://i/a HTTP/1.1\r\n\r\n"),
            Act::Connect,
            Act::Say(6, b"GET http://j/a HTTP/1.1\r\n\r\n"),
            Act::Reach(7),
            Act::Answer(7, RESPONSE),
            Act::Reach(5),
            Act::Answer(5, RESPONSE),
            Act::Say(1, b"st: h\r\n\r\n"),
            Act::Reach(8),
            Act::Answer(8, RESPONSE),
            Act::Connect,
            Act::Say(9, GET),
        ],
        wanted: &[
            Wanted::Said(1, &[Part::Text(REPLY)]),
            Wanted::Said(2, &[Part::Text(b"HTT")]),
            Wanted::Said(4, &[Part::Text(REPLY)]),
            Wanted::Said(6, &[Part::Text(REPLY)]),
            Wanted::Said(9, &[Part::Text(REPLY_HELD)]),
        ],
    },
];

#[test]
fn who_is_slow_holds_up_nobody_else(rt: HostRuntime) -> Result<(), Fail> {
    assert_eq!(rt; unlike(rt.alloc(), SLOW)?.as_str(), "");
    Ok(())
}

/// 61 bytes that differ: no buffer's length is a multiple of theirs.
const ALL_DIFFER: &[u8] = b"0123456789abcdefghijklmnopqrstuvwxyzABCDEFGHIJKLMNOPQRSTUVWXY";

/// Whatever is passed has no tag, and is not kept.
const LONG_PASSED: [&[u8]; 2] = [
    b"HTTP/1.1 200 OK\r\nContent-Length: 1999580\r\n\r\n",
    b"HTTP/1.1 200 OK\r\nvia: 1.1 polipo\r\ncontent-length: 1999580\r\nconnection: keep-alive\r\n\r\n",
];

const LONG_KEPT: [&[u8]; 2] = [
    b"HTTP/1.1 200 OK\r\nETag: \"x\"\r\nContent-Length: 1999580\r\n\r\n",
    b"HTTP/1.1 200 OK\r\netag: \"x\"\r\ndate: Sun, 06 Nov 1994 08:49:37 GMT\r\nvia: 1.1 polipo\r\ncontent-length: 1999580\r\nconnection: keep-alive\r\n\r\n",
];

/// Where the reply to a client that takes few bytes at a time is not these: a long body behind these heads of a response and
/// of its reply. Or where more bytes than that are read ahead of the client.
fn unlike_when_long(
    alloc: Global,
    heads: [&[u8]; 2],
    most_held: usize,
) -> Result<String, OutOfMemory> {
    let [response_head, reply_head] = heads;
    let response = with_repeated(alloc, response_head, 32_780, ALL_DIFFER)?;
    let reply = with_repeated(alloc, reply_head, 32_780, ALL_DIFFER)?;
    let acts = [
        Act::Tick(T),
        Act::Connect,
        Act::Window(1, 100_000),
        Act::Say(1, GET),
        Act::Reach(2),
        Act::Answer(2, response.as_slice()),
        Act::Window(1, 1),
        Act::Window(1, 1_000_000),
        Act::Window(1, 3_000_000),
    ];
    let played = play(alloc, Pace::Whole, &acts)?;
    if played.said(1)?.as_slice() != reply.as_slice() {
        return Ok(format!(in alloc; "{} bytes were said", played.said(1)?.len())?);
    }
    if played.most_held() > most_held {
        return Ok(format!(in alloc; "{} bytes were held", played.most_held())?);
    }
    Ok(String::new(alloc))
}

#[test]
fn a_long_reply_streams_through_a_small_buffer(rt: HostRuntime) -> Result<(), Fail> {
    // the pipe of a reply, and the response's head
    let unlike = unlike_when_long(rt.alloc(), LONG_PASSED, 65_536 + 44)?;
    assert_eq!(rt; unlike.as_str(), "");
    Ok(())
}

#[test]
fn a_long_page_is_read_only_so_far_ahead_of_its_client(rt: HostRuntime) -> Result<(), Fail> {
    // 256 chunks, one read, and the response's head
    let unlike = unlike_when_long(rt.alloc(), LONG_KEPT, 1_048_576 + 32_768 + 55)?;
    assert_eq!(rt; unlike.as_str(), "");
    Ok(())
}

/// One client takes 200 bytes from the front on, another 200 far ahead, and no more, while all comes.
const NEAR_AND_FAR: &[Exchange<'static>] = &[Exchange {
    name: "what comes for the near one is read 256 chunks ahead of it, and one read more",
    acts: &[
        Act::Tick(T),
        Act::Connect,
        Act::Window(1, 200),
        Act::Say(1, GET),
        Act::Reach(2),
        Act::Answer(
            2,
            b"HTTP/1.1 200 OK\r\nETag: \"x\"\r\nCache-Control: max-age=60\r\nContent-Length: 4000000\r\n\r\n",
        ),
        Act::Connect,
        Act::Window(3, 200),
        Act::Say(
            3,
            b"GET http://h/a HTTP/1.1\r\nRange: bytes=2998272-\r\n\r\n",
        ),
        Act::Reach(4),
        Act::Answer(
            4,
            b"HTTP/1.1 206 Partial Content\r\nETag: \"x\"\r\nContent-Range: bytes 2998272-3999999/4000000\r\nContent-Length: 1001728\r\n\r\n",
        ),
        Act::Fill(4, b'b', 4096),
        Act::Fill(2, b'a', 2_000_000),
    ],
    wanted: &[
        Wanted::Count(Step::Dialled(80), 2),
        Wanted::MostHeld(1_048_576 + 32_768 + 4096 + 500),
    ],
}];

#[test]
fn a_far_reader_lets_nothing_come_far_ahead_of_a_near_one(rt: HostRuntime) -> Result<(), Fail> {
    assert_eq!(rt;
        unlike_at(rt.alloc(), Pace::Whole, NEAR_AND_FAR)?.as_str(),
        ""
    );
    Ok(())
}

#[test]
fn a_long_request_streams_through_a_small_buffer(rt: HostRuntime) -> Result<(), Fail> {
    let alloc = rt.alloc();
    let request = with_repeated(
        alloc,
        b"PUT http://h/a HTTP/1.1\r\nContent-Length: 1999580\r\n\r\n",
        32_780,
        ALL_DIFFER,
    )?;
    let head = b"PUT /a HTTP/1.1\r\nhost: h\r\ncontent-length: 1999580\r\nvia: 1.1 polipo\r\n\r\n";
    let ask = with_repeated(alloc, head, 32_780, ALL_DIFFER)?;
    let acts = [
        Act::Connect,
        Act::Say(1, request.as_slice()),
        Act::Window(2, 100_000),
        Act::Reach(2),
        Act::Window(2, 1),
        Act::Window(2, 1_000_000),
        Act::Window(2, 3_000_000),
        Act::Answer(2, RESPONSE),
    ];
    let played = play(alloc, Pace::Whole, &acts)?;
    assert!(rt; played.asked(2)?.as_slice() == ask.as_slice());
    assert_eq!(rt; played.said(1)?.as_slice(), PASSED);
    // what may be read ahead of a client, and a part of its body
    assert!(rt; played.most_held() <= 24_576);
    Ok(())
}

/// A request that always takes a connection of its own (RFC 2616, section 8.1.2.2).
const POST: &[u8] = b"POST http://h/a HTTP/1.1\r\n\r\n";

/// Seven clients ask one host, and one another.
const HOSTS: &[&[u8]] = &[
    POST,
    POST,
    POST,
    POST,
    POST,
    POST,
    POST,
    b"POST http://i:81/a HTTP/1.1\r\n\r\n",
];

#[test]
fn a_host_has_at_most_four_connections(rt: HostRuntime) -> Result<(), Fail> {
    let then = [
        // the first that is free gives way to one for the client that asked first of those that wait
        Act::Reach(6),
        Act::Answer(6, RESPONSE),
        Act::Refuse(2),
        Act::Reach(8),
        Act::End(8),
        Act::Reach(14),
        Act::Answer(14, RESPONSE),
    ];
    let acts = asking(rt.alloc(), HOSTS, 1, &then)?;
    let wanted = [
        Wanted::Dialled(8, b"h", 80),
        Wanted::Dialled(13, b"i", 81),
        Wanted::Dialled(14, b"h", 80),
        Wanted::Dialled(15, b"h", 80),
        Wanted::Dialled(16, b"h", 80),
        Wanted::MostOpen(Step::Dialled(80), Step::Dropped, 4),
        Wanted::Count(Step::Dialled(80), 7),
        Wanted::Said(5, &[Part::Text(PASSED)]),
        Wanted::Said(1, &[Part::Text(PAGE_502)]),
        Wanted::Said(7, &[Part::Text(PAGE_502)]),
        Wanted::Said(9, &[Part::Text(PASSED)]),
    ];
    let exchange = [Exchange {
        name: "",
        acts: acts.as_slice(),
        wanted: &wanted,
    }];
    assert_eq!(rt; unlike_at(rt.alloc(), Pace::Whole, &exchange)?.as_str(), "");
    Ok(())
}

/// Seventeen hosts.
const MANY_HOSTS: &[&[u8]] = &[
    b"POST http://h0/ HTTP/1.1\r\n\r\n",
    b"POST http://h1/ HTTP/1.1\r\n\r\n",
    b"POST http://h2/ HTTP/1.1\r\n\r\n",
    b"POST http://h3/ HTTP/1.1\r\n\r\n",
    b"POST http://h4/ HTTP/1.1\r\n\r\n",
    b"POST http://h5/ HTTP/1.1\r\n\r\n",
    b"POST http://h6/ HTTP/1.1\r\n\r\n",
    b"POST http://h7/ HTTP/1.1\r\n\r\n",
    b"POST http://h8/ HTTP/1.1\r\n\r\n",
    b"POST http://h9/ HTTP/1.1\r\n\r\n",
    b"POST http://h10/ HTTP/1.1\r\n\r\n",
    b"POST http://h11/ HTTP/1.1\r\n\r\n",
    b"POST http://h12/ HTTP/1.1\r\n\r\n",
    b"POST http://h13/ HTTP/1.1\r\n\r\n",
    b"POST http://h14/ HTTP/1.1\r\n\r\n",
    b"POST http://h15/ HTTP/1.1\r\n\r\n",
    b"POST http://h16/ HTTP/1.1\r\n\r\n",
];

#[test]
fn there_are_at_most_64_connections_to_origins(rt: HostRuntime) -> Result<(), Fail> {
    // clients 1, 3, .. to 127 have the connections 2, 4, .. to 128, and 129 to 132 wait for one that gives way
    let then = [
        Act::Reach(10),
        Act::Answer(10, RESPONSE),
        Act::Reach(133),
        Act::Answer(133, RESPONSE),
    ];
    let acts = asking(rt.alloc(), MANY_HOSTS, 4, &then)?;
    let wanted = [
        Wanted::MostOpen(Step::Dialled(80), Step::Dropped, 64),
        Wanted::Count(Step::Dialled(80), 66),
        Wanted::Dialled(133, b"h16", 80),
        Wanted::Dialled(134, b"h16", 80),
        Wanted::Said(9, &[Part::Text(PASSED)]),
        Wanted::Said(129, &[Part::Text(PASSED)]),
    ];
    let exchange = [Exchange {
        name: "",
        acts: acts.as_slice(),
        wanted: &wanted,
    }];
    assert_eq!(rt; unlike_at(rt.alloc(), Pace::Whole, &exchange)?.as_str(), "");
    Ok(())
}

#[test]
fn there_are_at_most_256_clients(rt: HostRuntime) -> Result<(), Fail> {
    let then = [Act::Break(5), Act::Say(257, b"GET /a HTTP/1.1\r\n\r\n")];
    let acts = asking(rt.alloc(), &[b""], 258, &then)?;
    let wanted = [
        Wanted::Exit(Exit::Served),
        Wanted::MostOpen(Step::Opened, Step::Shut, 256),
        Wanted::Count(Step::Opened, 258),
        Wanted::Count(Step::Shut, 258),
        Wanted::Said(257, &[Part::Text(PAGE_400)]),
    ];
    let exchange = [Exchange {
        name: "",
        acts: acts.as_slice(),
        wanted: &wanted,
    }];
    assert_eq!(rt; unlike_at(rt.alloc(), Pace::Whole, &exchange)?.as_str(), "");
    Ok(())
}
