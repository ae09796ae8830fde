// Requests that are refused with a page.
use pp_play::{
    Act, Exchange, GET, PAGE_400, PAGE_411, PAGE_431, Pace, Part, Step, Wanted, play, unlike,
    with_repeated,
};
use pp_world::Decision;
use std::test::Fail;

/// What a refused client gets: the page, and the end; and nobody is dialled.
macro_rules! refused {
    ($status:literal, $page:ident, $len:literal) => {
        &[
            Wanted::Said(1, &[Part::Text($page)]),
            Wanted::Course(
                1,
                &[
                    Step::Opened,
                    Step::Taken(0, Decision::Refuse($status)),
                    Step::Said($len),
                    Step::Shut,
                    Step::Stopped,
                ],
            ),
            Wanted::Count(Step::Dialled(80), 0),
        ]
    };
}

const BAD: &[Wanted<'static>] = refused!(400, PAGE_400, 109);

const NO_LENGTH: &[Wanted<'static>] = refused!(411, PAGE_411, 117);

/// A client that says this.
macro_rules! says {
    ($name:literal, $text:literal, $wanted:ident) => {
        Exchange { name: $name, acts: &[Act::Connect, Act::Say(1, $text)], wanted: $wanted }
    };
}

const NO_HEADS: &[Exchange<'static>] = &[
    says!("a NUL", b"\0", BAD),
    says!("a TLS greeting", b"\x16\x03\x01\x02\x00\x01\x00", BAD),
    says!("a blank first", b" GET http://h/a HTTP/1.1\r\n\r\n", BAD),
    says!("a later version", b"GET http://h/a HTTP/2.0\r\n\r\n", BAD),
    says!("no version", b"GET http://h/a\r\n\r\n", BAD),
    says!(
        "no colon",
        b"GET http://h/a HTTP/1.1\r\nHost h\r\n\r\n",
        BAD
    ),
    says!(
        "a blank before a colon",
        b"GET http://h/a HTTP/1.1\r\nHost : h\r\n\r\n",
        BAD
    ),
];

#[test]
fn bytes_that_are_no_request_get_a_page(rt: HostRuntime) -> Result<(), Fail> {
    assert_eq!(rt; unlike(rt.alloc(), NO_HEADS)?.as_str(), "");
    Ok(())
}

const NO_TARGETS: &[Exchange<'static>] = &[
    says!("a path", b"GET /a HTTP/1.1\r\nHost: h\r\n\r\n", BAD),
    says!("a star", b"OPTIONS * HTTP/1.1\r\nHost: h\r\n\r\n", BAD),
    says!(
        "a host and port",
        b"CONNECT h:443 HTTP/1.1\r\nHost: h\r\n\r\n",
        BAD
    ),
    says!(
        "a tunnel to a URL (RFC 9110, section 9.3.6)",
        b"CONNECT http://h/a HTTP/1.1\r\nHost: h\r\n\r\n",
        BAD
    ),
    says!(
        "another scheme",
        b"GET https://h/a HTTP/1.1\r\nHost: h\r\n\r\n",
        BAD
    ),
    says!("no host", b"GET http:///a HTTP/1.1\r\nHost: h\r\n\r\n", BAD),
    says!(
        "the port 0",
        b"GET http://h:0/a HTTP/1.1\r\nHost: h\r\n\r\n",
        BAD
    ),
    says!(
        "a port above 65535",
        b"GET http://h:65536/a HTTP/1.1\r\nHost: h\r\n\r\n",
        BAD
    ),
    says!(
        "user information",
        b"GET http://u@h/a HTTP/1.1\r\nHost: h\r\n\r\n",
        BAD
    ),
    says!(
        "an IPv6 literal",
        b"GET http://[::1]/a HTTP/1.1\r\nHost: h\r\n\r\n",
        BAD
    ),
    says!(
        "a target before a coding",
        b"PUT /a HTTP/1.1\r\nTransfer-Encoding: chunked\r\n\r\n",
        BAD
    ),
];

#[test]
fn a_target_that_is_no_http_url_gets_a_page(rt: HostRuntime) -> Result<(), Fail> {
    assert_eq!(rt; unlike(rt.alloc(), NO_TARGETS)?.as_str(), "");
    Ok(())
}

const HEAD_PAGES: &[Exchange<'static>] = &[Exchange {
    name: "a page to HEAD has no body (RFC 2616, section 9.4)",
    acts: &[
        Act::Connect,
        Act::Say(
            1,
            b"HEAD http://h/a HTTP/1.1\r\nTransfer-Encoding: chunked\r\n\r\n",
        ),
    ],
    wanted: &[
        Wanted::Said(
            1,
            &[Part::Text(
                b"HTTP/1.1 411 Length Required\r\ncontent-type: text/plain\r\ncontent-length: 20\r\nconnection: close\r\n\r\n",
            )],
        ),
        Wanted::Course(
            1,
            &[
                Step::Opened,
                Step::Taken(0, Decision::Refuse(411)),
                Step::Said(97),
                Step::Shut,
                Step::Stopped,
            ],
        ),
    ],
}];

const BODIES: &[Exchange<'static>] = &[
    says!(
        "a coding, though GET needs no body",
        b"GET http://h/a HTTP/1.1\r\nTransfer-Encoding: chunked\r\n\r\n",
        NO_LENGTH
    ),
    says!(
        "a coding and a length, with a request behind it",
        b"POST http://h/a HTTP/1.1\r\nContent-Length: 4\r\nTransfer-Encoding: chunked\r\n\r\n0\r\n\r\nGET http://h/b HTTP/1.1\r\n\r\n",
        NO_LENGTH
    ),
    says!(
        "a coding that Connection names, and lengths that differ",
        b"POST http://h/a HTTP/1.1\r\nConnection: transfer-encoding\r\nContent-Length: 4\r\nContent-Length: 5\r\nTransfer-Encoding: identity, x\r\n\r\n",
        NO_LENGTH
    ),
    says!(
        "no interim answer comes before a page",
        b"POST http://h/a HTTP/1.1\r\nExpect: 100-continue\r\nTransfer-Encoding: chunked\r\n\r\n",
        NO_LENGTH
    ),
    says!(
        "lengths that differ",
        b"POST http://h/a HTTP/1.1\r\nContent-Length: 4\r\nA: b\r\ncontent-length: 5\r\n\r\nabcde",
        BAD
    ),
    says!(
        "a length with a sign",
        b"POST http://h/a HTTP/1.1\r\nContent-Length: +1\r\n\r\na",
        BAD
    ),
    says!(
        "an empty length",
        b"POST http://h/a HTTP/1.1\r\nContent-Length: \r\n\r\na",
        BAD
    ),
    says!(
        "a list of lengths",
        b"POST http://h/a HTTP/1.1\r\nContent-Length: 1, 1\r\n\r\na",
        BAD
    ),
    says!(
        "a length of 65 bits",
        b"GET http://h/a HTTP/1.1\r\nContent-Length: 18446744073709551616\r\n\r\n",
        BAD
    ),
    says!(
        "a folded line",
        b"POST http://h/a HTTP/1.1\r\nA: b\r\n Content-Length: 5\r\n\r\nabcde",
        BAD
    ),
];

#[test]
fn a_body_without_one_clear_length_gets_a_page(rt: HostRuntime) -> Result<(), Fail> {
    assert_eq!(rt; unlike(rt.alloc(), BODIES)?.as_str(), "");
    assert_eq!(rt; unlike(rt.alloc(), HEAD_PAGES)?.as_str(), "");
    Ok(())
}

#[test]
fn a_head_that_does_not_end_gets_a_page(rt: HostRuntime) -> Result<(), Fail> {
    let alloc = rt.alloc();
    let many_fields = with_repeated(alloc, b"GET http://h/a HTTP/1.1\r\n", 101, b"a: b\r\n")?;
    let long_field = with_repeated(alloc, b"GET http://h/a HTTP/1.1\r\na: ", 2048, b"bbbbbbbb")?;
    let long_target = with_repeated(alloc, b"GET http://h/", 2048, b"aaaaaaaa")?;
    let heads = [
        (Pace::Whole, many_fields.as_slice()),
        (Pace::Bytewise, many_fields.as_slice()),
        (Pace::Whole, long_field.as_slice()),
        (Pace::Whole, long_target.as_slice()),
    ];
    let course = [
        Step::Opened,
        Step::Taken(0, Decision::Refuse(431)),
        Step::Said(149),
        Step::Shut,
        Step::Stopped,
    ];
    for (pace, head) in heads {
        let played = play(alloc, pace, &[Act::Connect, Act::Say(1, head)])?;
        assert_eq!(rt; played.said(1)?.as_slice(), PAGE_431, "{pace:?}");
        assert_eq!(rt; played.course(1)?.as_slice(), course.as_slice(), "{pace:?}");
    }
    Ok(())
}

const BEHIND_PAGE: &[Exchange<'static>] = &[Exchange {
    name: "no request is heard behind a page",
    acts: &[
        Act::Connect,
        Act::Window(1, 0),
        Act::Say(1, b"GET /a HTTP/1.1\r\n\r\nGET http://h/a HTTP/1.1\r\n\r\n"),
        Act::Say(1, GET),
        Act::Window(1, 200),
        Act::Say(1, GET),
    ],
    wanted: BAD,
}];

#[test]
fn no_request_is_heard_behind_a_page(rt: HostRuntime) -> Result<(), Fail> {
    assert_eq!(rt; unlike(rt.alloc(), BEHIND_PAGE)?.as_str(), "");
    Ok(())
}
