//! An event that was waited for is handled as the law has it, whichever it is.
//!
//! `specs/Moments.antt` says what each moment of a read of an origin rests on beside the law, which gives the rest of it (RestsOn of `pp_reads_law`).
//!
//! Not said: what is asked of those moments beside; `pp_joints_law` has it, from the wait on (`specs/ReadsCome.antt` there).
//!
//! To the layer above: each is the clause of a function that does nothing. It is one part of the proof that the program obeys the law.
//!
//! Takes no memory, and does nothing when the program runs.
#![tactic(auto)]

mod answered; // who is answered, and goes on
mod clients; // of clients
mod lone; // what goes alone
mod moments; // each moment of a read
mod named; // what clients name is there
mod origins; // connections to origins
mod settled; // of whom nothing is over
mod silent; // Stop, a tick, an origin that was reached, a client that comes

pub use answered::answered_ones_go_on;
pub use clients::{clients_are_read_as_by_the_law, clients_are_written_to_as_by_the_law};
pub use lone::lone_asks_go_with_clients;
pub use moments::{heads_leave_pipes_bare, reads_rest_on_what_is_there};
pub use named::{names_are_there_as_events_come, names_are_there_in_reads};
pub use origins::{
    broken_connections_come_as_by_the_law, origins_are_asked_as_they_come,
    origins_are_read_as_they_come,
};
pub use settled::awaited_ones_are_settled;
pub use silent::silent_events_come_as_by_the_law;
