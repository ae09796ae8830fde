//! How a client of the program stands for a client of the law.
//!
//! `specs/Seats.antt` is the relation: the seat of `pp_seats` shows the client of `pp_law`, part by part, in the words of both.
//! From it follows that what the program says of a seat is what the law says of that client: how far its request and its reply
//! are, how it fares, what is kept of a head, and which decision or cut is due. What is made of the seat by a read, by bytes that
//! are said, and behind a reply that is over, shows what the law makes of that client; and where all seats show all clients, so
//! they do behind a change of one. `specs/Exchanges.antt` is the same of an exchange. An instance of the program has a life, and
//! each life a number of the law, whichever that is: the relations take these numbers first.
//!
//! To the layer above: each equation is the clause of a function that does nothing. It is one part of the proof that the program
//! obeys the law: of connections, rows and turns nothing is said here. The words of the program stand in `pp_seats`, which says
//! of each function which it computes; one that stands in `specs/` here is no clause of a function of the program yet.
//!
//! Takes no memory, and does nothing when the program runs.
#![tactic(auto)]

mod clients; // all of them
mod courses; // how a request fares
mod deciding; // what is due
mod exchanges; // what an exchange is for
mod heads; // what is kept of a head
mod reading; // what a client sends
mod saying; // bytes that are said
mod words; // how far a request and its reply are

pub use clients::clients_are_the_laws;
pub use courses::{courses_are_the_laws, rows_leave_as_the_laws};
pub use deciding::{decisions_are_the_laws, dues_are_the_laws, requests_are_decided_as_the_laws};
pub use exchanges::exchanges_are_the_laws;
pub use heads::fronts_are_the_laws;
pub use reading::reads_are_the_laws;
pub use saying::sayings_are_the_laws;
pub use words::{nexts_are_the_laws, seats_begin_as_the_laws, stages_are_the_laws};
