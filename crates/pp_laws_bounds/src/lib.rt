//! How much there is at most of what a lawful log speaks of: connections, asks, exchanges, rows, pins and clients.
//!
//! `pp_law` says which happening may follow which. Here stands what follows of numbers: whatever
//! clients and origins do, no more than so many of each are there at any moment.
//!
//! To the layer above: each law is the clause of a function that does nothing. What leaves a lawful
//! log keeps to each of them; that a program leaves one is not said here.
//!
//! Takes no memory, and does nothing when the program runs.
#![tactic(auto)]

mod bounds; // how much there is at most

pub use bounds::{
    bodies_are_few, clients_are_few, connections_are_few, hosts_are_spared, lines_are_short,
    pins_are_few, placed_exchanges_are_few, rows_are_few,
};
