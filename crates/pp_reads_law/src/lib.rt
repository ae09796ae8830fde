//! What a read of an origin brings is what the law has it bring, step by step of its pipe and piece by piece of the law; and the event of an origin
//! that can be read leads where the law leads, with the turn behind it.
//!
//! `specs/Rows.antt` has the row that is kept of the key of an exchange come into memory beside the head of its response, and another leave for
//! it, which is to be noted. `Heads` joins the final head: it is taken as the law takes it, or refused. `Data` says where the data of a response
//! go, `Wholes` what its end leaves, and `Bads` what is made of what is no response, or comes too early. `Pieces` joins these amid a body: the
//! steps of the pipe up to the end of the body, or of the read, are one piece of the law. `Awaits` has one step where a head is awaited,
//! `Interims` how the law comes to the text that is read there, and `Gots` joins both: the step is what the law gets, up to the end of that
//! head; `Clears` has what stands before it. `Empties` has the end of an empty body, which the law has with its head, and `Pauses` a step amid
//! a body that finds no byte left. `Reads` joins all of them, by induction over the steps of the pipe: a whole read, from its first byte to
//! its last, where what each piece rests on is supplied by whatever holds from one to the next. `Amid` is the relation.
//!
//! `Readable` has the event, from where the read is owed and from the wait on: nothing came yet, the connection ended or broke, or bytes came.
//! Behind what came replies that are over end, and attempts count anew. `Brings` says what each piece of the bytes rests on, beside what a turn
//! shows, `Goes` that who is answered can go on to the next request, and `Stays` what a read leaves as it was of clients, of connections, and of
//! what the turn knows beside them. `Keys` has of each event that memory was given for the key of each head that was read, in a life that did
//! not go astray by it. `Lives` has that lives are only given, and who is followed stays; and `Told`, with `Heads`, that what exchanges of clients
//! joined is told by its number.
//!
//! Not said: which replies end behind a read, which is in `pp_endings_law`. Nor is anything said of a turn in which memory was refused
//! for a row.
//!
//! To the layer above: each is the clause of a function that does nothing. It is one part of the proof that the program obeys the law. The
//! words of the program stand in `pp_origins`, `pp_due` and `pp_proxy`, which say of each function which it computes.
//!
//! Takes no memory, and does nothing when the program runs.
#![tactic(auto)]

mod awaits; // what a read brings where a head is awaited
mod bads; // what is no response, or comes too early
mod clears; // a head that came, with what stands before it
mod data; // data of a response
mod empties; // the end of an empty body
mod getting; // an origin is read, and replies that are over end
mod giving; // memory for the keys of heads that are read in an event
mod heads; // the final head of a response
mod lives; // lives that were given
mod pauses; // no byte is left amid a body
mod pieces; // what a read brings amid a body
mod reads; // a whole read
mod rows; // the row that is kept of the key of an exchange
mod staying; // what a read leaves as it was
mod telling; // what was joined is told by its number
mod wholes; // a response is whole

pub use awaits::{
    heads_are_awaited_as_the_laws, heads_are_got_as_the_laws, interim_heads_are_passed,
};
pub use bads::bad_responses_are_the_laws;
pub use clears::heads_are_got_there;
pub use data::data_come_as_the_laws;
pub use empties::empty_bodies_end_as_the_laws;
pub use getting::origins_are_read_as_by_the_law;
pub use giving::events_give_keys_unless_astray;
pub use heads::heads_come_as_the_laws;
pub use lives::lives_go_on_in_reads;
pub use pauses::pauses_change_nothing;
pub use pieces::bodies_are_read_as_the_laws;
pub use reads::reads_are_got_as_the_laws;
pub use rows::rows_are_brought_as_the_laws;
pub use staying::reads_leave_clients_at_their_requests;
pub use telling::steps_leave_all_told;
pub use wholes::whole_responses_end_as_the_laws;
