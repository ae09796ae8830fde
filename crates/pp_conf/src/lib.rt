//! The words of the command line and the text of the configuration.
//!
//! Words are read by `clap`'s simple command `polipo [-c FILE] [-g SEED] [name=value ...]`; the text is
//! lines `name = value`. Assignments of the text come first, then those of the words, and a later one
//! replaces an earlier one.
//!
//! To the layer above: `Conf::read` is `reading_of` of `specs/Words.antt`, faults in their order;
//! `config_name` is the FILE of `-c`, and `Conf::plain` has the settings of no words. The form of the text and the settings
//! are ours.
//!
//! Takes memory for clap's tables, the assignments, the folder, the log's name and the ranges of clients. Opening the file is for the program.
#![tactic(auto)]

mod addresses; // addresses and ranges of clients
mod assignments; // settings with the texts of their values
mod command; // the command line
mod conf; // the settings as they are in force
mod fault; // why there are none
mod logs; // where replies are logged
mod numbers; // numbers in decimal
mod read; // from words and text to settings
mod setting; // the table of settings
mod text; // the lines of the text

pub use conf::Conf;
pub use fault::ConfFault;
pub use read::{Command, config_name};
pub use setting::Setting;
