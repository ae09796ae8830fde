//! Worked exchanges with the cache, in memory and in its folder: the whole program, run over a world in memory.
//!
//! Each table writes down what clients and origins do, where the machine stops and what the crash leaves of what was in doubt; and
//! what is wanted: the bytes that each client is sent, how often an origin is asked, how much of what it sends is read, and the
//! course of the folder, operation by operation, or the whole log. Most are played twice, with each text whole and with every byte
//! alone. Folders write down their files, and what a request comes to over them. Crowds write down how many follow a body, which
//! chunks of it they need next, and which chunks leave memory where more comes than fits.
//!
//! One course of clients and an origin is played again and again: each call that can fail fails once, and the machine stops
//! behind each happening.
//!
//! To `pp_scarce`: the course, and what each client may be said. The tests stand beside `pp_exchanges`, so that both are proved at
//! the same time.
#![tactic(auto)]

#[cfg(test)]
mod saying; // that nothing is said where all goes as wanted

// What is held, and asked for.
#[cfg(test)]
mod for_whom; // whom a response is for, and how long
#[cfg(test)]
mod hits; // replies from what is held
#[cfg(test)]
mod holes; // what is missing, and asked for
#[cfg(test)]
mod near; // clients that read far ahead of what comes
#[cfg(test)]
mod not_kept; // what the cache does not answer
#[cfg(test)]
mod outdated; // what passed responses tell of rows
#[cfg(test)]
mod sharing; // one fetch for many
#[cfg(test)]
mod unseen; // what nobody will see
#[cfg(test)]
mod validation; // rows that are refreshed or replaced

// What is held of lost origins, and of wrong answers.
#[cfg(test)]
mod kept_losses; // what a lost origin sent is kept, unless nobody gives the rest
#[cfg(test)]
mod one_answer; // what is still out for a request that asks anew
#[cfg(test)]
mod useless; // answers that bring nothing of what was asked for

// The folder.
#[cfg(test)]
mod folders; // files, and a run over them
#[cfg(test)]
mod foreign; // files that are no entries
#[cfg(test)]
mod lives; // from one life to the next
#[cfg(test)]
mod on_disk; // what is kept on the disk, and when

// Whole logs, happening by happening.
#[cfg(test)]
mod lines; // a log as it is written down, line by line
#[cfg(test)]
mod whole_asks; // of asks that lose their place
#[cfg(test)]
mod whole_chunks; // of a page whose chunks are kept each alone
#[cfg(test)]
mod whole_foreign; // over an entry of another key
#[cfg(test)]
mod whole_lives; // through a crash
#[cfg(test)]
mod whole_log; // of a page that is fetched
#[cfg(test)]
mod whole_runs; // of a page whose chunks are kept in runs
#[cfg(test)]
mod whole_versions; // of a page that another version replaces

// More than fits.
#[cfg(test)]
mod crowds; // followers, and the chunks that leave memory
#[cfg(test)]
mod lengths; // the longest body that is stored
#[cfg(test)]
mod room; // which chunks leave, and which stay

// What fails.
mod course; // what clients and the origin do, and may be said
#[cfg(test)]
mod crashes; // the machine stops behind each happening
#[cfg(test)]
mod failing; // each call that can fail fails once

pub use course::{ALONE, AT_ONCE, COURSE, MAY_BE_SAID, MaySay, Reply};
