//! Which URL a request is for: its key, and the name of that key's file (RFC 2616, section 5.1.2).
//!
//! `key` reads the absolute form of a request's target and writes its key: `http://`, the host in
//! lower case, the port unless it is 80, the path and the query. Two targets of one URL have one
//! key, so a response that was kept under it answers both.
//!
//! To the layer above: the key, its host, port and path are those of `specs/Key.antt`, whose reader
//! computes and agrees with the grammar of http_uri; a target without a key gets its first fault.
//!
//! `key` takes memory, to hold the target while it is read. Who is asked is for `pp_ask`.
#![tactic(auto)]

mod absolute; // the parts of an absolute target
mod target; // the key of a target, and where its parts stand
mod name; // the file name of a key

pub use name::file_name;
pub use target::{KEY_ROOM, Place, TargetFault, key};
