//! What a turn does for an event leads where the law leads, and the turn stands behind it.
//!
//! `specs/Stands.antt` is what stands around an event: the relation of `pp_turns_law`, with where the law is and what it still owes, who is
//! looked at, and which connections are open. Events that add nothing to the log are in `specs/Silent.antt`: Stop, a client that comes, a
//! connection that was reached, and the clock; `specs/Breaks.antt` has a connection that breaks. `specs/Woken.antt` says how a read or a
//! write comes to be owed; `specs/Hears.antt` has the read of a client and `specs/Asks.antt` the write to an origin, from there on, and
//! `specs/Readable.antt` and `specs/Writable.antt` the same from the wait on. Behind each attempts count anew (`specs/Anew.antt`), and the
//! turn stands at the law's state, from which it leaves the event. Behind each, too, each client that goes on can be decided: behind a read,
//! a write or a break as long as memory was given for the key of each head that was read (`specs/Ready.antt`): in a life that did not go
//! astray it was (`specs/Keys.antt`).
//!
//! `specs/Says.antt` has the write to a client for whom nothing has to be read back before: some of its reply is said, and the chunks of what
//! was said are the ones used last; behind the last bytes the reply is over, and the next request stands or the client is closed; or the
//! write fails, and the client is lost. `specs/Sayable.antt` has the same from the wait on.
//!
//! `specs/ToLoad.antt` is what stands where a client is written to whose next byte is on the disk alone: the turn shows the law's state, the
//! shelf the law's entries, and nothing was begun on the disk. Its chunk is read back (`specs/ReadsBack.antt`): that it was may be noted, the
//! bytes are those that the law puts into memory, and behind it the turn shows the law's state, with the write still owed and some of what is
//! next at hand. Or it cannot be read (`specs/Losses.antt`): that stands for the write; its name is closed, the entry is noted as gone, and
//! the turn shows the law's state without it. `specs/Loads.antt` has the whole write: behind the read it is one with nothing to be read
//! before; or nothing is said, and the event is handled. Where a read failed the law is at the disk already, and the program in the event:
//! the phases between are left in the law, in which nothing has to leave memory.
//!
//! Not said: a read of an origin, which is in `pp_reads_law`; and a client that comes for which there is no memory.
//!
//! To the layer above: each is the clause of a function that does nothing. It is one part of the proof that the program
//! obeys the law: nothing is said here of a turn in which memory was refused for a row. The words of the program stand in `pp_proxy`,
//! whose `handle` says of each event what it does, and those of the read of a chunk in `pp_talk` (`load_and_say`).
//!
//! Takes no memory, and does nothing when the program runs.
#![tactic(auto)]

mod asking; // an origin is asked
mod behind; // attempts count anew
mod breaking; // a connection to an origin breaks
mod giving; // memory for the keys of heads that are read
mod loading; // a chunk is read back before a write
mod owing; // a read or a write is owed
mod reading; // a client is read
mod saying; // a client is written to
mod silent; // events that add nothing to the log

pub use asking::origins_are_asked_as_by_the_law;
pub use behind::attempts_count_behind_events_as_by_the_law;
pub use breaking::connections_break_as_by_the_law;
pub use giving::keys_are_given_unless_astray;
pub use loading::{chunks_are_read_back_as_by_the_law, writes_lead_behind_reads_as_by_the_law};
pub use owing::{clients_are_owed_as_by_the_law, origins_are_owed_as_by_the_law};
pub use reading::clients_are_heard_as_by_the_law;
pub use saying::writes_to_clients_lead_as_by_the_law;
pub use silent::{
    clients_come_as_by_the_law, connections_are_reached_as_by_the_law, seconds_begin_as_by_the_law,
    stops_lead_as_by_the_law,
};
