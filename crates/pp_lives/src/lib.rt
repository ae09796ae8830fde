//! Worked lives: entries on a disk in memory, its crashes, and what the next life finds.
//!
//! A course is a life over a folder, written down call by call, and what its crashes leave: one function plays it. Behind
//! a crash the file is read as the disk format says, byte by byte and with no part of this program: each byte that it vouches
//! for is the one that was written, and what was acknowledged is there. The next life finds just that, and can keep the rest.
//!
//! Nothing stands on this crate. That the same holds of every image is proved in `pp_gate`, `pp_store` and `pp_recover`; here
//! it is tried, with the operations and the files written down.
#![tactic(auto)]

#[cfg(test)]
mod acts; // calls on a life, and their answers
#[cfg(test)]
mod courses; // a life, act by act, and what its crashes leave
#[cfg(test)]
mod crashes; // a crash within an operation
#[cfg(test)]
mod edits; // an entry's file with a byte changed, or cut
#[cfg(test)]
mod entries; // what is kept, and files, as they are written down
#[cfg(test)]
mod faults; // operations and reads that fail
#[cfg(test)]
mod foreign; // files that are no entries
#[cfg(test)]
mod format; // what a file says, by the disk format
#[cfg(test)]
mod gates; // open gates behind one that is not
#[cfg(test)]
mod given; // what a life is given to keep
#[cfg(test)]
mod life; // a store over a disk in memory
#[cfg(test)]
mod operations; // the operations of one entry, and its file
#[cfg(test)]
mod recovery; // what the next life finds
#[cfg(test)]
mod removals; // an entry that is withdrawn
#[cfg(test)]
mod saying; // where a table goes otherwise than wanted
#[cfg(test)]
mod short; // reads that give too little, and too many names
#[cfg(test)]
mod small; // files of all kinds on a small disk
#[cfg(test)]
mod steps; // operations, as a course writes them down
#[cfg(test)]
mod whole; // an entry that is published with its body
