//! The demo's script: five lives of 40 clients each, over 50 pages, all of a number.
//!
//! One generator draws the lengths of the pages, then what each client asks for and how each life crashes. `demo_script` is
//! the script of a life, `demo_crash` where and how it crashes, and `summary_of` counts what a log has of such lives.
//!
//! To the layer above: the script is that of `specs/Script.antt`, cue by cue and byte by byte, and each count is that of
//! `specs/Summary.antt`. All of it is ours.
//!
//! The scripts take memory. Who plays them is for `pp_run`.
#![tactic(auto)]

mod asking; // what the clients ask for
mod crashing; // where and how a life crashes
mod generator; // the numbers of a seed
mod pages; // what the origin has
mod script; // a life's cues and pages
mod summary; // what a log has, in numbers

pub use crashing::{crash_place, demo_crash};
pub use script::demo_script;
pub use summary::{Summary, summary_of};
