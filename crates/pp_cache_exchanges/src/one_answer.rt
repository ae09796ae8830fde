// One reply is one response: what is still out for a request that asks anew answers nobody (RFC 2616, sections 8.1.2.2 and 13.5.4).
use crate::saying::says_nothing;
use pp_play::{
    Act, Exchange, PAGE_502, Pace, Part, Step, T, Wanted, joined_acts, unlike, unlike_at,
};
use pp_text::OutOfMemory;
use pp_world::{Cause, Decision};
use std::alloc::Global;
use std::test::Fail;

const PART: &[u8] =
    b"HTTP/1.1 206 Partial Content\r\nETag: \"x\"\r\nCache-Control: max-age=60\r\nContent-Range: bytes 4096-4099/4100\r\nContent-Length: 4\r\n\r\nlast";

const FETCH: &[u8] = b"GET /b HTTP/1.1\r\nhost: h\r\nvia: 1.1 polipo\r\n\r\n";

const CHECK: &[u8] =
    b"GET /b HTTP/1.1\r\nhost: h\r\ncache-control: no-cache\r\nif-none-match: \"x\"\r\nvia: 1.1 polipo\r\n\r\n";

/// Ten bytes of a response without a version, and how they are passed.
const TEN: &[u8] = b"HTTP/1.1 200 OK\r\nContent-Length: 10\r\n\r\nBBBBBBBBBB";

const TEN_PASSED: &[u8] =
    b"HTTP/1.1 200 OK\r\nvia: 1.1 polipo\r\ncontent-length: 10\r\nconnection: keep-alive\r\n\r\nBBBBBBBBBB";

/// The end of /b is held, of version "x".
const END_IS_HELD: &[Act<'static>] = &[
    Act::Tick(T),
    Act::Connect,
    Act::Say(
        1,
        b"GET http://h/b HTTP/1.1\r\nRange: bytes=4096-4099\r\n\r\n",
    ),
    Act::Reach(2),
    Act::Answer(2, PART),
    Act::Connect,
];

/// Client 3 wants all of it, and the rest is asked for on connection 2.
const ALL_IS_WANTED: &[Act<'static>] = &[Act::Say(3, b"GET http://h/b HTTP/1.1\r\n\r\n")];

/// It is checked for client 4, on connection 5, and another answer comes: client 3 has to ask anew, there.
const ROW_IS_CLEARED: &[Act<'static>] = &[
    Act::Connect,
    Act::Say(
        4,
        b"GET http://h/b HTTP/1.1\r\nCache-Control: no-cache\r\n\r\n",
    ),
    Act::Reach(5),
    Act::Answer(5, b"HTTP/1.1 200 OK\r\nContent-Length: 0\r\n\r\n"),
];

/// What happens behind that, and what is wanted then.
struct Behind {
    name: &'static str,
    acts: &'static [Act<'static>],
    wanted: &'static [Wanted<'static>],
}

/// In each the answer to the old ask comes on connection 2, and that to the new one on connection 5.
const ANEW: &[Behind] = &[
    Behind {
        name: "two bodies under one head",
        acts: &[
            Act::Answer(2, b"HTTP/1.1 200 OK\r\nContent-Length: 10\r\n\r\nAAAAA"),
            Act::Answer(5, TEN),
        ],
        wanted: &[
            Wanted::Said(3, &[Part::Text(TEN_PASSED)]),
            Wanted::Asked(5, &[CHECK, FETCH]),
        ],
    },
    Behind {
        name: "a length that is never filled",
        acts: &[
            Act::Answer(2, b"HTTP/1.1 200 OK\r\nContent-Length: 20\r\n\r\nAAAAA"),
            Act::Answer(5, TEN),
        ],
        wanted: &[Wanted::Said(3, &[Part::Text(TEN_PASSED)])],
    },
    Behind {
        name: "the next reply within a body",
        acts: &[
            Act::Say(3, b"GET http://h/c HTTP/1.1\r\n\r\n"),
            Act::Answer(2, b"HTTP/1.1 200 OK\r\nContent-Length: 30\r\n\r\nAAAAA"),
            Act::Answer(5, TEN),
            Act::Answer(5, TEN),
        ],
        wanted: &[Wanted::Said(3, &[Part::Text(TEN_PASSED), Part::Text(TEN_PASSED)])],
    },
    Behind {
        name: "a body under the head of one that has none",
        acts: &[
            Act::Answer(2, b"HTTP/1.1 404 Not Found\r\nContent-Length: 0\r\n\r\n"),
            Act::Answer(5, TEN),
        ],
        wanted: &[Wanted::Said(3, &[Part::Text(TEN_PASSED)])],
    },
    Behind {
        name: "bare bytes among chunks",
        acts: &[
            Act::Answer(
                2,
                b"HTTP/1.1 200 OK\r\nTransfer-Encoding: chunked\r\n\r\n5\r\nAAAAA\r\n",
            ),
            Act::Answer(5, TEN),
        ],
        wanted: &[Wanted::Said(3, &[Part::Text(TEN_PASSED)])],
    },
    Behind {
        name: "chunks under a length",
        acts: &[
            Act::Answer(2, b"HTTP/1.1 200 OK\r\nContent-Length: 10\r\n\r\nAAAAA"),
            Act::Answer(
                5,
                b"HTTP/1.1 200 OK\r\nTransfer-Encoding: chunked\r\n\r\n5\r\nBBBBB\r\n0\r\n\r\n",
            ),
        ],
        wanted: &[Wanted::Said(
            3,
            &[
                Part::Text(
                    b"HTTP/1.1 200 OK\r\nvia: 1.1 polipo\r\ntransfer-encoding: chunked\r\nconnection: keep-alive\r\n\r\n",
                ),
                Part::Coded(b"BBBBB"),
            ],
        )],
    },
];

/// In these it neither begins a second fetch, nor costs the request anything.
const NOT_COUNTED: &[Behind] = &[
    Behind {
        name: "a second fetch beside the first, for an old 304",
        acts: &[
            Act::Answer(2, b"HTTP/1.1 304 Not Modified\r\n\r\n"),
            Act::Answer(5, TEN),
        ],
        wanted: &[
            Wanted::Said(3, &[Part::Text(TEN_PASSED)]),
            Wanted::Asked(5, &[CHECK, FETCH]),
            Wanted::Count(Step::Taken(0, Decision::Fetch), 2),
        ],
    },
    Behind {
        name: "a second fetch, for an old part without a version",
        acts: &[
            Act::Answer(
                2,
                b"HTTP/1.1 206 Partial Content\r\nContent-Range: bytes 0-4/4100\r\nContent-Length: 5\r\n\r\nAAAAA",
            ),
            Act::Answer(5, TEN),
        ],
        wanted: &[
            Wanted::Said(3, &[Part::Text(TEN_PASSED)]),
            Wanted::Count(Step::Taken(0, Decision::Fetch), 2),
        ],
    },
    Behind {
        name: "a second fetch, for an old fault of the origin",
        acts: &[
            Act::Answer(
                2,
                b"HTTP/1.1 503 Service Unavailable\r\nContent-Length: 0\r\n\r\n",
            ),
            Act::Answer(5, TEN),
        ],
        wanted: &[
            Wanted::Said(3, &[Part::Text(TEN_PASSED)]),
            Wanted::Count(Step::Taken(0, Decision::Fetch), 2),
        ],
    },
    Behind {
        name: "a new row, which the answer to the fetch clears",
        acts: &[
            Act::Answer(
                2,
                b"HTTP/1.1 206 Partial Content\r\nETag: \"z\"\r\nCache-Control: max-age=60\r\nContent-Range: bytes 0-4095/4100\r\nContent-Length: 4096\r\n\r\nA",
            ),
            Act::Answer(5, TEN),
        ],
        wanted: &[
            Wanted::Said(3, &[Part::Text(TEN_PASSED)]),
            Wanted::Count(Step::Taken(0, Decision::Fetch), 2),
        ],
    },
    Behind {
        name: "a request fails for an old answer that is none",
        acts: &[Act::Answer(2, b"HTTP/3 oh\r\n\r\n"), Act::Answer(5, TEN)],
        wanted: &[Wanted::Said(3, &[Part::Text(TEN_PASSED)])],
    },
    Behind {
        name: "a good reply is cut for an old answer that is none",
        acts: &[
            Act::Answer(5, b"HTTP/1.1 200 OK\r\nContent-Length: 10\r\n\r\nBBBBB"),
            Act::Answer(2, b"HTTP/3 oh\r\n\r\n"),
            Act::Answer(5, b"BBBBB"),
        ],
        wanted: &[Wanted::Said(3, &[Part::Text(TEN_PASSED)])],
    },
    Behind {
        name: "a page is cut for an old answer that is none",
        acts: &[
            Act::Window(3, 0),
            Act::Answer(
                5,
                b"HTTP/1.1 200 OK\r\nTransfer-Encoding: chunked\r\n\r\nzz\r\n",
            ),
            Act::Answer(2, b"HTTP/3 oh\r\n\r\n"),
            Act::Window(3, 1000),
        ],
        wanted: &[Wanted::Said(3, &[Part::Text(PAGE_502)])],
    },
];

/// Where these go otherwise than wanted, behind the row that was cleared.
fn unlike_behind(alloc: Global, behinds: &[Behind]) -> Result<String, OutOfMemory> {
    for behind in behinds {
        let acts = joined_acts(
            alloc,
            &[END_IS_HELD, ALL_IS_WANTED, ROW_IS_CLEARED, behind.acts],
        )?;
        let played = Exchange {
            name: behind.name,
            acts: acts.as_slice(),
            wanted: behind.wanted,
        };
        let said = unlike_at(alloc, Pace::Whole, &[played])?;
        if !said.is_empty() {
            return Ok(said);
        }
    }
    Ok(String::new(alloc))
}

#[test]
fn the_answer_to_an_old_ask_is_nobodys(rt: HostRuntime) -> Result<(), Fail> {
    says_nothing(&rt, unlike_behind(rt.alloc(), ANEW))
}

#[test]
fn and_costs_its_request_nothing(rt: HostRuntime) -> Result<(), Fail> {
    says_nothing(&rt, unlike_behind(rt.alloc(), NOT_COUNTED))
}

/// Other ways to ask anew.
const OTHERWISE: &[Behind] = &[
    Behind {
        name: "it is passed: the last bytes of what has no row any more",
        acts: &[
            Act::Say(3, b"GET http://h/b HTTP/1.1\r\nRange: bytes=-4100\r\n\r\n"),
            Act::Connect,
            Act::Say(
                4,
                b"GET http://h/b HTTP/1.1\r\nCache-Control: no-cache\r\n\r\n",
            ),
            Act::Reach(5),
            Act::Answer(5, b"HTTP/1.1 200 OK\r\nContent-Length: 0\r\n\r\n"),
            Act::Answer(2, b"HTTP/1.1 200 OK\r\nContent-Length: 10\r\n\r\nAAAAA"),
            Act::Answer(
                5,
                b"HTTP/1.1 206 Partial Content\r\nContent-Range: bytes 6-9/10\r\nContent-Length: 4\r\n\r\nBBBB",
            ),
        ],
        wanted: &[Wanted::Said(
            3,
            &[Part::Text(
                b"HTTP/1.1 206 Partial Content\r\ncontent-range: bytes 6-9/10\r\nvia: 1.1 polipo\r\ncontent-length: 4\r\nconnection: keep-alive\r\n\r\nBBBB",
            )],
        )],
    },
    Behind {
        name: "its row is replaced, and the check of the new one fails",
        acts: &[
            Act::Say(3, b"GET http://h/b HTTP/1.1\r\n\r\n"),
            Act::Connect,
            Act::Say(
                4,
                b"GET http://h/b HTTP/1.1\r\nCache-Control: no-cache\r\n\r\n",
            ),
            Act::Reach(5),
            Act::Answer(
                5,
                b"HTTP/1.1 200 OK\r\nETag: \"y\"\r\nContent-Length: 0\r\n\r\n",
            ),
            Act::Answer(2, b"HTTP/1.1 200 OK\r\nContent-Length: 10\r\n\r\nAAAAA"),
            Act::Answer(
                5,
                b"HTTP/1.1 500 Internal Server Error\r\nContent-Length: 3\r\n\r\nerr",
            ),
        ],
        wanted: &[Wanted::Said(
            3,
            &[Part::Text(
                b"HTTP/1.1 500 Internal Server Error\r\nvia: 1.1 polipo\r\ncontent-length: 3\r\nconnection: keep-alive\r\n\r\nerr",
            )],
        )],
    },
];

#[test]
fn and_so_however_it_is_asked_anew(rt: HostRuntime) -> Result<(), Fail> {
    let alloc = rt.alloc();
    for behind in OTHERWISE {
        let acts = joined_acts(alloc, &[END_IS_HELD, behind.acts])?;
        let played = Exchange {
            name: behind.name,
            acts: acts.as_slice(),
            wanted: behind.wanted,
        };
        says_nothing(&rt, unlike(alloc, &[played]))?;
    }
    Ok(())
}

const RING: &[Exchange<'static>] = &[Exchange {
    name: "a long answer that nobody reads holds up nobody behind it on its connection",
    acts: &[
        Act::Tick(T),
        Act::Connect,
        Act::Say(1, b"GET http://h/r HTTP/1.1\r\nRange: bytes=0-4095\r\n\r\n"),
        Act::Reach(2),
        Act::Answer(
            2,
            b"HTTP/1.1 206 Partial Content\r\nETag: \"x\"\r\nCache-Control: max-age=60\r\nContent-Range: bytes 0-4095/8192\r\nContent-Length: 4096\r\n\r\n",
        ),
        Act::Fill(2, 97, 4096),
        Act::Connect,
        Act::Say(
            3,
            b"GET http://h/r HTTP/1.1\r\nRange: bytes=4000-4999\r\n\r\n",
        ),
        Act::Connect,
        Act::Say(
            4,
            b"GET http://h/p HTTP/1.1\r\nCache-Control: no-store\r\n\r\n",
        ),
        Act::Connect,
        Act::Say(
            6,
            b"GET http://h/p HTTP/1.1\r\nCache-Control: no-store\r\n\r\n",
        ),
        Act::Connect,
        Act::Say(
            8,
            b"GET http://h/p HTTP/1.1\r\nCache-Control: no-store\r\n\r\n",
        ),
        Act::Reach(5),
        Act::Reach(7),
        Act::Reach(9),
        Act::Connect,
        Act::Say(
            10,
            b"GET http://h/r HTTP/1.1\r\nRange: bytes=5000-8191\r\n\r\n",
        ),
        Act::Answer(2, b"HTTP/1.1 200 OK\r\nContent-Length: 65537\r\n\r\n"),
        Act::Fill(2, 101, 65537),
        Act::Answer(2, b"HTTP/1.1 404 Not Found\r\nContent-Length: 0\r\n\r\n"),
        Act::Answer(2, b"HTTP/1.1 404 Not Found\r\nContent-Length: 0\r\n\r\n"),
        Act::Answer(5, b"HTTP/1.1 204 No Content\r\nConnection: close\r\n\r\n"),
        Act::Answer(7, b"HTTP/1.1 204 No Content\r\nConnection: close\r\n\r\n"),
        Act::Answer(9, b"HTTP/1.1 204 No Content\r\nConnection: close\r\n\r\n"),
    ],
    wanted: &[
        Wanted::Said(
            10,
            &[Part::Text(
                b"HTTP/1.1 404 Not Found\r\nvia: 1.1 polipo\r\ncontent-length: 0\r\nconnection: keep-alive\r\n\r\n",
            )],
        ),
        Wanted::Cut(3, Cause::Superseded),
    ],
}];

#[test]
fn nobody_waits_for_what_nobody_reads(rt: HostRuntime) -> Result<(), Fail> {
    says_nothing(&rt, unlike_at(rt.alloc(), Pace::Whole, RING))
}
