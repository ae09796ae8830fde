// The listener, and the end.
use crate::saying::says_nothing;
use pp_play::{
    Act, Exchange, Filed, GET, Pace, Part, RESPONSE, Step, Wanted, play, unlike_at, unlike_by,
};
use pp_run::Exit;
use pp_world::{Cause, Decision, Happening};
use std::test::Fail;

const NOTHING: &[Exchange<'static>] = &[Exchange {
    name: "nothing happens",
    acts: &[],
    wanted: &[
        Wanted::Exit(Exit::Served),
        Wanted::Filed(&[Filed::Woke(false)]),
        Wanted::Count(Step::Opened, 0),
    ],
}];

#[test]
fn without_words_and_events_it_serves_until_it_is_stopped(rt: HostRuntime) -> Result<(), Fail> {
    says_nothing(&rt, unlike_by(rt.alloc(), &[], Pace::Whole, NOTHING))
}

const STOPPED: &[Act<'static>] = &[
    Act::Connect,
    Act::Say(1, GET),
    Act::Window(1, 10),
    Act::Reach(2),
    Act::Answer(2, RESPONSE),
    Act::Connect,
    Act::Say(3, b"GET http://i/a HTTP/1.1\r\n\r\n"),
    Act::Reach(4),
    Act::Connect,
    Act::Say(5, b"GET http"),
    Act::Connect,
    Act::Say(6, b"GET http://j/a HTTP/1.1\r\n\r\n"),
    Act::Stop,
    Act::Reach(7),
];

const ALL_CLOSED: &[Exchange<'static>] = &[Exchange {
    name: "a reply that was begun is cut, and all is closed",
    acts: STOPPED,
    wanted: &[
        Wanted::Exit(Exit::Served),
        Wanted::Said(1, &[Part::Text(b"HTTP/1.1 2")]),
        Wanted::Course(
            1,
            &[
                Step::Opened,
                Step::Taken(0, Decision::Fetch),
                Step::Taken(0, Decision::Hit(0, 5)),
                Step::Said(10),
                Step::Stopped,
                Step::Cut(Cause::Stop),
                Step::Shut,
            ],
        ),
        Wanted::Count(Step::Cut(Cause::Stop), 1),
        Wanted::Count(Step::Opened, 4),
        Wanted::Count(Step::Shut, 4),
        Wanted::Count(Step::Dialled(80), 3),
        Wanted::Count(Step::Dropped, 3),
    ],
}];

#[test]
fn the_end_cuts_each_reply_that_was_begun(rt: HostRuntime) -> Result<(), Fail> {
    says_nothing(&rt, unlike_at(rt.alloc(), Pace::Whole, ALL_CLOSED))?;
    assert!(rt; is_shut_last(play(rt.alloc(), Pace::Whole, STOPPED)?.log()));
    Ok(())
}

/// Whether closings and cuts are all that comes behind Stopped.
fn is_shut_last(log: &[Happening]) -> bool {
    let mut is_stopped = false;
    let mut is_shut_last = true;
    for happening in log {
        match happening {
            Happening::Stopped => is_stopped = true,
            Happening::Shut(_) | Happening::Dropped(_) | Happening::Noted(_) => {}
            _ => is_shut_last = is_shut_last && !is_stopped,
        }
    }
    is_stopped && is_shut_last
}
