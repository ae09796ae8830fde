//! What stands of each client in a turn stands from one wait to the next, but for its decisions and rounds (`pp_stays_law` has these).
//!
//! `specs/Stays.antt` has the forms: over a wait, over each event where the life did not go astray by it, and behind the event, as chunks and
//! asks leave and as what came is kept. `specs/Laws.antt` says of what: memory was refused for no row that a client waits for, and what
//! each client is to be said first has room; and that of what is dropped as much is counted as came, over a wait. `specs/Counts.antt` has
//! that behind what leaves memory, what is kept, events that add nothing to the log, and the read of a client; `specs/Writes.antt` behind each
//! write, and `specs/Ends.antt` behind the read of an origin that brings nothing of a response. `specs/Pieces.antt` has it amid the read of an
//! origin, behind each head and each piece of a body, and `specs/Reads.antt` behind all of it; `specs/Came.antt` that what came can be counted in 64
//! bits, as a log is short and each read brings 32,768 bytes at most. `specs/Heads.antt` has it that each head which a
//! connection reads has room, written anew under a name of at most 64 bytes: by the limits of heads (`proofs/ReadHeads.antt`) it has at most
//! 16,755 bytes (`proofs/HeadRoom.antt`). `specs/Begins.antt` has all three as replies begin at the end of a turn.
//!
//! `specs/Apart.antt` has it that no origin has the number of a client that was read at the last wait, as no number comes twice
//! (`pp_laws_sides`).
//!
//! `specs/MayNote.antt` has it that decisions and rounds note at most 768 names: so where an event is awaited there is room to note a
//! name of each row.
//!
//! Each function of the program that changes clients is walked once, for whatever holds of a client where it is not refused and has room
//! (`proofs/Carried.antt`).
//!
//! To the layer above: each is the clause of a function that does nothing.
//!
//! Takes no memory, and does nothing when the program runs.
#![tactic(auto)]

mod apart; // who was read
mod came; // what came
mod counts; // what is dropped
mod ends; // what is dropped, where an origin ends
mod given; // nobody is refused
mod limits; // heads that are read
mod notes; // what is noted
mod pieces; // what is dropped, amid a read
mod texts; // what is said first
mod writes; // what is dropped, behind a write

pub use apart::{origins_stay_apart, those_who_are_read_are_clients};
pub use came::{reads_can_be_counted, what_came_can_be_counted};
pub use counts::{
    what_is_dropped_stays_counted_as_a_client_comes,
    what_is_dropped_stays_counted_as_a_client_is_read,
    what_is_dropped_stays_counted_as_a_connection_breaks,
    what_is_dropped_stays_counted_as_a_connection_is_reached,
    what_is_dropped_stays_counted_as_all_stops, what_is_dropped_stays_counted_as_memory_is_left,
    what_is_dropped_stays_counted_as_replies_begin, what_is_dropped_stays_counted_as_rows_are_kept,
    what_is_dropped_stays_counted_as_the_clock_ticks, what_is_dropped_stays_counted_over_waits,
};
pub use ends::what_is_dropped_stays_counted_as_an_origin_ends;
pub use given::{
    nobody_is_refused_as_replies_begin, nobody_is_refused_behind_events,
    nobody_is_refused_in_events, nobody_is_refused_over_waits,
};
pub use limits::heads_have_room;
pub use notes::{names_are_few_at_first, names_stay_few, rows_may_be_noted};
pub use pieces::{
    lines_are_answered_in_reads, what_is_dropped_stays_counted_amid_reads,
    what_is_dropped_stays_counted_as_an_origin_is_read, what_is_dropped_stays_counted_behind_heads,
    what_is_dropped_stays_counted_behind_pieces,
};
pub use texts::{
    texts_have_room_as_replies_begin, texts_have_room_behind_events, texts_have_room_in_events,
    texts_have_room_over_waits,
};
pub use writes::{
    what_is_dropped_stays_counted_as_a_call_is_owed,
    what_is_dropped_stays_counted_as_a_chunk_is_lost,
    what_is_dropped_stays_counted_as_a_client_is_said_more,
    what_is_dropped_stays_counted_as_one_is_written_to,
};
