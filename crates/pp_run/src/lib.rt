//! The program over a world: from its words to its exit.
//!
//! `run` reads words, the file that they name and the settings of both, takes memory, opens the folder of the
//! cache, listens, and makes turns until the world stops it. What it runs over is the caller's choice: real sockets, or a world in
//! memory.
//!
//! Words with a seed show the demo instead: the program serves in five lives of a world in memory, by the scripts of `pp_demo`, and
//! prints what their log has, in numbers.
//!
//! To the layer above: each exit but `Served` and `ServedAstray` prints its one line, and nothing else is ever printed but the demo's
//! five; `specs/Exits.antt` says of each exit when it comes and what a told log gained by it. `Served` says besides that memory was
//! never refused for what the law knows of the turns, and that no loop of a turn ended at its bound.
//!
//! What words and text say is for `pp_conf`, and what a turn does is for `pp_proxy`.
#![tactic(auto)]

mod ending; // how the program ends
mod lines; // what it prints
mod program; // from words to exit
mod serving; // from settings to the end of serving
mod showing; // the demo: five lives over a world in memory

pub use ending::Exit;
pub use lines::{NO_MEMORY_LINE, USAGE_LINE};
pub use program::run;
pub use showing::{Shown, demo};
