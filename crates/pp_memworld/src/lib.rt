//! A world in memory: it plays a script of clients, origins and the clock, keeps a folder of files,
//! and tells what happened.
//!
//! A `Script` is a list of cues, as that a client connects or that an origin answers, and a site of
//! pages whose origins answer by themselves. `MemWorld` is a `Wire` over it and a `Disk`: the same
//! script and the same calls give the same events, so every run can be told again. `crash` gives the
//! world of the next life, over the files that a crash at a place of the log leaves.
//!
//! To the layer above: the log that it tells is exactly what its calls did; numbers are given once;
//! a connection gives the front of what is unread there, and takes what its window lets in; reads and
//! listings of files give what the log says; a call fails only where it was told to by its number,
//! where a cue breaks its connection, or where a dial finds that all numbers were given. By every
//! choice a crash leaves files that the log permits. The world stops telling its log only for want
//! of memory.
//!
//! What a whole script leads to is for whoever writes it; nothing here knows of requests, but for
//! the pages of the site.
#![tactic(auto)]

mod calls; // which calls fail, by their numbers
mod choice; // what a crash leaves of what is loose or in doubt
mod copies; // a log again
mod crash; // a crash, and the life that follows it
mod disk; // the world, as a Disk
mod draft; // the one draft
mod fields; // the fields of an ask
mod file; // one file, and what a crash may leave of it
mod folder; // the files of a folder, as the log leaves them
mod image; // the files that a life woke to
mod memworld; // the world: what its calls have in common, and the events of its script
mod operation; // an operation on the disk
mod parts; // parts of a slice
mod peer; // the other end of one connection
mod record; // the log, and the connections that are open by it
mod script; // cues and pages
mod sides; // what is told of a connection, by whose it is
mod site; // what the origin of a page answers to an ask
mod slot; // the files one of which stands under a name
mod slots; // what stands under each name
mod telling; // the log, one happening more
mod traffic; // all other ends, and what the cues bring to them
mod wire; // the world, as a Wire

pub use image::put_file;
pub use memworld::MemWorld;
pub use script::{Cue, Page, Script};
