//! The world as it is: real sockets, the clock, the console and files.
//!
//! A connection is registered once, for both directions, and the system reports edges alone. What it
//! reported is kept beside the connection until a call finds that it would wait. `next` answers from what
//! is kept, everyone in turn, and asks the system when nothing is left, up to the end of the second.
//!
//! A folder of files is locked as long as the world lives, so that no second program works in it, and is left
//! where its path names another. What is to stand through a crash is synced: a file by the handle that wrote
//! it, the names in the folder by the folder itself. What a life finds is synced once at its begin.
//!
//! A name is dialled at one of its addresses, and at the next where that fails.
//!
//! The seconds that are told go on where the system's clock is set back, and follow it where it is set forth.
//!
//! To the layer above: `NetWorld` is a `Wire` and a `Disk` that tells no log. Its count of faults rises at
//! each fault, and no number is given twice. What the sockets and the files hold, no clause can say.
//!
//! The operator's log of replies is written behind all that is promised of the world: what of it cannot be written is counted,
//! and said.
//!
//! Takes memory in `new`, for the lines of the log, for who may come, for the text of a configuration and for the names in the folder. What is wanted is
//! for the turn, and what stands in a file for those who keep it.
#![tactic(auto)]

mod access; // the operator's log
mod connection; // one connection: its phase, and its bytes
mod connections; // all of them, by number
mod console; // what is printed, and where
mod dial; // a dial: to which address, and since when
mod disk; // the calls on files
mod door; // the listener, and who may come
mod files; // the front of a configuration
mod folder; // the folder of files, its lock, and the calls on its files
mod held; // a file that is held open
mod hosts; // addresses of names, for a few seconds, and which is dialled next
mod listing; // the names in the folder
mod net_world; // the tables, the counts, and how the system is asked
mod place; // where the folder stands, and how it is made
mod readiness; // in which directions a call need not wait
mod rotation; // whose turn it is
mod seconds; // the seconds that are told, whoever sets the clock
mod visit; // what the log tells of a client
mod wire; // the calls on connections

pub use hosts::Hosts;
pub use net_world::{NetFault, NetWorld};
pub use seconds::Seconds;
