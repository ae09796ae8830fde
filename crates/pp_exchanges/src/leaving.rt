// Clients that are lost, within a request, within a reply, or while they wait. Others are served as ever, also from what was
// fetched for those.
//
// A client is lost by two breaks. Where the first fails a read, it counts as one that sends no more, and is answered what it
// asked; the other fails the answer's writing.
use crate::saying::says_nothing;
use pp_play::{
    ASK, Act, Exchange, GET, HEAD, Pace, Part, REPLY, REPLY_HELD, RESPONSE, Step, T, Wanted, play,
    unlike, unlike_at,
};
use pp_world::Decision;
use std::test::Fail;

/// A request with a body.
const PUT: &[u8] = b"PUT http://h/a HTTP/1.1\r\nContent-Length: 3\r\n\r\n";

const LEFT: &[Step] = &[Step::Opened, Step::HungUp, Step::Shut, Step::Stopped];

#[test]
fn a_client_that_leaves_in_its_request_is_shut(rt: HostRuntime) -> Result<(), Fail> {
    let alloc = rt.alloc();
    let mut acts = Vec::new(alloc);
    let mut last: u64 = 1;
    for len in 0..PUT.len() {
        for leave in [Act::HangUp(0), Act::Break(0)] {
            acts.extend_from_slice(&[Act::Connect, Act::Say(0, &PUT[..len]), leave])?;
            last = last.saturating_add(1);
        }
    }
    acts.extend_from_slice(&[Act::Connect, Act::Say(0, GET)])?;
    let origin = last.saturating_add(1);
    acts.extend_from_slice(&[Act::Reach(origin), Act::Answer(origin, RESPONSE)])?;
    let mut wanted = Vec::new(alloc);
    for client in 1..last {
        wanted.push(Wanted::Course(client, LEFT))?;
    }
    wanted.push(Wanted::Said(last, &[Part::Text(REPLY)]))?;
    let exchange = Exchange {
        name: "clients that leave within a request",
        acts: acts.as_slice(),
        wanted: wanted.as_slice(),
    };
    says_nothing(&rt, unlike_at(alloc, Pace::Whole, &[exchange]))
}

#[test]
fn a_client_that_is_lost_in_its_reply_is_shut(rt: HostRuntime) -> Result<(), Fail> {
    let alloc = rt.alloc();
    let mut acts = Vec::new(alloc);
    acts.extend_from_slice(&[Act::Tick(T), Act::Connect, Act::Say(1, GET)])?;
    acts.extend_from_slice(&[Act::Reach(2), Act::Answer(2, RESPONSE)])?;
    for len in 0..REPLY_HELD.len() {
        acts.extend_from_slice(&[Act::Connect, Act::Window(0, len as u64), Act::Say(0, GET)])?;
        acts.extend_from_slice(&[Act::Break(0), Act::Break(0), Act::Window(0, 1)])?;
    }
    acts.extend_from_slice(&[Act::Connect, Act::Say(0, GET)])?;
    let played = play(alloc, Pace::Whole, acts.as_slice())?;
    let mut client: u64 = 3;
    for len in 0..REPLY_HELD.len() {
        assert_eq!(rt;
            played.said(client)?.as_slice(),
            &REPLY_HELD[..len],
            "at {len}"
        );
        client = client.saturating_add(1);
    }
    assert_eq!(rt; played.said(client)?.as_slice(), REPLY_HELD);
    // the first client, and one that is not lost yet
    assert_eq!(rt; played.most_open(Step::Opened, Step::Shut), 2);
    assert_eq!(rt; played.count(Step::Dialled(80)), 1);
    Ok(())
}

/// A client that was lost once it asked, and another that asked for the same: what was asked serves the other.
const LOST_LATE: &[Wanted<'static>] = &[
    Wanted::Taken(1, Decision::Fetch),
    Wanted::Said(1, &[]),
    Wanted::Shut(1),
    Wanted::Count(Step::Dialled(80), 1),
    Wanted::Asked(2, &[ASK]),
    Wanted::Said(3, &[Part::Text(REPLY_HELD)]),
];

const WAITING: &[Exchange<'static>] = &[
    Exchange {
        name: "while it is dialled for",
        acts: &[
            Act::Tick(T),
            Act::Connect,
            Act::Say(1, GET),
            Act::Break(1),
            Act::Break(1),
            Act::Connect,
            Act::Say(3, GET),
            Act::Reach(2),
            Act::Answer(2, RESPONSE),
        ],
        wanted: LOST_LATE,
    },
    Exchange {
        name: "while its request is asked, and another waits for the same",
        acts: &[
            Act::Tick(T),
            Act::Connect,
            Act::Say(1, GET),
            Act::Connect,
            Act::Say(0, GET),
            Act::Reach(2),
            Act::Break(1),
            Act::Break(1),
            Act::Answer(2, RESPONSE),
        ],
        wanted: LOST_LATE,
    },
    Exchange {
        name: "while its response's head comes",
        acts: &[
            Act::Tick(T),
            Act::Connect,
            Act::Say(1, GET),
            Act::Reach(2),
            Act::Answer(2, b"HTTP/1.1 200 OK\r\nDate: Sun, 06 Nov 1994"),
            Act::Break(1),
            Act::Break(1),
            Act::Answer(
                2,
                b" 08:49:37 GMT\r\nETag: \"x\"\r\nCache-Control: max-age=60\r\nContent-Length: 5\r\n\r\nhello",
            ),
            Act::Connect,
            Act::Say(3, GET),
        ],
        wanted: LOST_LATE,
    },
    Exchange {
        name: "within its reply, while more of the body comes",
        acts: &[
            Act::Tick(T),
            Act::Connect,
            Act::Window(1, 100),
            Act::Say(1, GET),
            Act::Reach(2),
            Act::Answer(2, HEAD),
            Act::Answer(2, b"hel"),
            Act::Break(1),
            Act::Break(1),
            Act::Window(1, 1),
            Act::Answer(2, b"lo"),
            Act::Connect,
            Act::Say(3, GET),
        ],
        wanted: &[
            Wanted::Shut(1),
            Wanted::Count(Step::Dialled(80), 1),
            Wanted::Asked(2, &[ASK]),
            Wanted::Said(3, &[Part::Text(REPLY_HELD)]),
        ],
    },
];

#[test]
fn a_client_that_is_lost_while_it_waits_leaves_what_it_asked_to_others(
    rt: HostRuntime,
) -> Result<(), Fail> {
    says_nothing(&rt, unlike(rt.alloc(), WAITING))
}

/// A client that was lost within its request's body: it is shut at once.
const LOST_ASKING: Wanted<'static> = Wanted::Course(
    1,
    &[
        Step::Opened,
        Step::Taken(0, Decision::Pass),
        Step::HungUp,
        Step::Shut,
        Step::Stopped,
    ],
);

/// A connection on which a body was asked in part can carry nothing else.
const GIVEN_UP: &[Wanted<'static>] = &[
    LOST_ASKING,
    Wanted::Course(
        2,
        &[
            Step::Dialled(80),
            Step::Reached,
            Step::Asked(66),
            Step::Dropped,
            Step::Stopped,
        ],
    ),
];

const ASKING: &[Exchange<'static>] = &[
    Exchange {
        name: "before the origin is reached: the connection is another's",
        acts: &[
            Act::Tick(T),
            Act::Connect,
            Act::Say(1, PUT),
            Act::Say(1, b"ab"),
            Act::Break(1),
            Act::Connect,
            Act::Say(3, GET),
            Act::Reach(2),
            Act::Answer(2, RESPONSE),
        ],
        wanted: &[
            LOST_ASKING,
            Wanted::Count(Step::Dialled(80), 1),
            Wanted::Asked(2, &[ASK]),
            Wanted::Said(3, &[Part::Text(REPLY)]),
        ],
    },
    Exchange {
        name: "once it is asked",
        acts: &[
            Act::Connect,
            Act::Say(1, PUT),
            Act::Reach(2),
            Act::Say(1, b"ab"),
            Act::Break(1),
        ],
        wanted: GIVEN_UP,
    },
    Exchange {
        name: "once it is asked, where it will send no more",
        acts: &[
            Act::Connect,
            Act::Say(1, PUT),
            Act::Reach(2),
            Act::Say(1, b"ab"),
            Act::HangUp(1),
        ],
        wanted: GIVEN_UP,
    },
    Exchange {
        name: "once it is asked, as one of four of its host: a fifth request gets the place",
        acts: &[
            Act::Tick(T),
            Act::Connect,
            Act::Say(1, PUT),
            Act::Reach(2),
            Act::Connect,
            Act::Say(3, PUT),
            Act::Connect,
            Act::Say(5, PUT),
            Act::Connect,
            Act::Say(7, PUT),
            Act::Connect,
            Act::Say(9, GET),
            Act::Break(1),
            Act::Reach(10),
            Act::Answer(10, RESPONSE),
        ],
        wanted: &[
            LOST_ASKING,
            Wanted::MostOpen(Step::Dialled(80), Step::Dropped, 4),
            Wanted::Asked(10, &[ASK]),
            Wanted::Said(9, &[Part::Text(REPLY)]),
        ],
    },
];

#[test]
fn a_client_that_is_lost_within_its_body_gives_its_connection_up(
    rt: HostRuntime,
) -> Result<(), Fail> {
    says_nothing(&rt, unlike(rt.alloc(), ASKING))
}
