// The demo: five lives over a world in memory, and what their log has.
use crate::opened::open;
use pp_run::{Exit, demo};
use pp_world::{Decision, Happening, Remark};
use std::alloc::{AllocError, Global};
use std::test::Fail;

#[test]
fn the_lines_that_are_printed_are_the_counts_of_the_lives(rt: HostRuntime) -> Result<(), Fail> {
    let alloc = rt.alloc();
    let shown = demo(alloc, 1)?;
    let lives = shown.summary.lives;
    let replies = shown.summary.replies;
    let cuts = shown.summary.cuts;
    let asks = shown.summary.asks;
    let kept = shown.summary.kept;
    let wanted = format!(in alloc;
        "prints lives {lives}\nreplies {replies}\ncuts {cuts}\nasks {asks}\nkept {kept}\n\n"
    )?;
    let came = open(alloc, "-g 1", b"proxyPort=9", None)?;
    assert_eq!(rt; came.exit, Exit::Served);
    assert_eq!(rt; came.exit.status(), 0);
    assert_eq!(rt; came.course.as_slice(), wanted.as_bytes());
    assert_eq!(rt; lives, 5);
    assert!(rt; kept > 0);
    Ok(())
}

#[test]
fn the_demo_has_no_refusal_and_no_cut(rt: HostRuntime) -> Result<(), Fail> {
    let shown = demo(rt.alloc(), 1)?;
    let log = shown.world.log().unwrap_or(&[]);
    for happening in log {
        assert!(rt; !is_refusal(happening));
        assert!(rt; !matches!(happening, Happening::Noted(Remark::Cut(_, _))));
    }
    Ok(())
}

fn is_refusal(happening: &Happening) -> bool {
    match happening {
        Happening::Noted(Remark::Taken(_, _, Decision::Refuse(_))) => true,
        _ => false,
    }
}

#[test]
fn in_its_last_life_each_of_40_clients_has_one_reply_from_an_instance(
    rt: HostRuntime,
) -> Result<(), Fail> {
    let shown = demo(rt.alloc(), 1)?;
    let log = shown.world.log().unwrap_or(&[]);
    let begin = log
        .iter()
        .rposition(|happening| matches!(happening, Happening::Woke(_)))
        .unwrap_or(0);
    let life = log.get(begin..).unwrap_or(&[]);
    let clients = clients_in(rt.alloc(), life)?;
    assert_eq!(rt; clients.len(), 40);
    for client in clients {
        assert_eq!(rt; replies_to(client, life), 1);
    }
    Ok(())
}

/// The clients that were accepted, in their order.
fn clients_in(alloc: Global, life: &[Happening]) -> Result<Vec<u64>, AllocError> {
    let mut clients = Vec::new(alloc);
    for happening in life {
        if let Happening::Opened(client) = happening {
            clients.push(*client)?;
        }
    }
    Ok(clients)
}

/// How many replies from an instance were decided for this client.
fn replies_to(client: u64, life: &[Happening]) -> usize {
    life.iter()
        .filter(|happening| is_reply_to(client, happening))
        .count()
}

fn is_reply_to(client: u64, happening: &Happening) -> bool {
    match happening {
        Happening::Noted(Remark::Taken(number, _, Decision::Hit(_, _) | Decision::Part(_, _))) =>
            *number == client,
        _ => false,
    }
}
