//! What a turn does to one client is what the law permits, and leads where the law leads.
//!
//! A turn that owes a read of a client takes the log on by one happening: the bytes that came, that no more come, or that none
//! came yet; and one that owes a write, by the bytes that were said, or that none can be said any more. A decision is taken, a
//! cut is noted where it is due, and the connection of a client that is over is closed. Where the seats of the program show the
//! clients of the state that the log may go on as from, the happening is permitted, and the seats that the program makes of it
//! show the clients of the state behind it: behind the last bytes of a reply the next request stands, or the client is closed.
//!
//! To the layer above: each is the clause of a function that does nothing, in the words of `pp_obeys`: `Leads` names the state
//! that the happening leads to, by the law's own functions. What is there to be said, and which cut is due, are the law's own
//! words here: how the chunks in memory stand for the law's is not said, and of the rest of the turn nothing is.
//!
//! Takes no memory, and does nothing when the program runs.
#![tactic(auto)]

mod closing; // the closing of a client
mod deciding; // a decision that is taken
mod ending; // a reply that is over
mod hearing; // a read of a client
mod saying; // a write to a client

pub use closing::clients_are_closed;
pub use deciding::decisions_are_taken;
pub use ending::replies_end;
pub use hearing::reads_go_on;
pub use saying::writes_go_on;
