//! The outside of the proxy as traits, and the log of what happened there.
//!
//! A `Wire` accepts and dials connections, reads and writes their bytes, tells the time, prints, and
//! reads the configuration; a `Disk` is a folder of files. Whoever runs the proxy chooses them: real
//! sockets and files, or a world in memory.
//! Each call says what it appends to a log of `Happening`s, where the world tells its log at all;
//! what the proxy promises is said over that log alone.
//!
//! To the layer above: each call appends exactly what `specs/Wire.antt` or `specs/Disk.antt` computes
//! from its arguments and its answer; a count of faults never falls, and a call fails only where it
//! rose; numbers of connections rise, so that none is given twice. What a file holds, and what a
//! crash may leave of it, is read off the log, name by name.
//!
//! Only `Image::put`, `Wire::config` and `Disk::names` answer that memory was refused. What the
//! happenings mean for requests and replies is for the law of the proxy, and no crate of the outside
//! knows of it.
#![tactic(auto)]

mod access; // what the operator's log says
mod disk; // a folder of files
mod door; // where clients are listened for
mod event; // what the poller reports, and what it is asked for
mod happening; // an entry of the log
mod image; // the files of a folder, by name
mod note; // what the proxy itself puts on record
mod op; // an operation that changes the disk
mod wire; // connections, the clock and the console

pub use access::{AccessLog, Replied, Source};
pub use disk::{Disk, DiskFault, NamesFault};
pub use door::{AddressRange, Door};
pub use event::{Event, Got, Side, Wants};
pub use happening::Happening;
pub use image::{Image, Name};
pub use note::{Cause, Decision, Note, Remark};
pub use op::DiskOp;
pub use wire::{CONFIG_READ_LEN, ConfigFault, Logged, Wire, WireFault, World};
