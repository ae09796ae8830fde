//! What is known of replies that are made from the table, in each state that a lawful log may go on as from.
//!
//! A reply that was decided and has not begun is passed, and follows nothing; or it is read from an instance, in the span of its decision,
//! which is that of the request in the version of this very instance. And none goes on behind the end of the body that it is read from.
//!
//! To the layer above: one law, the clause of a function that does nothing. It is over `pp_laws_replies`, whose steps leave each reply as it
//! is but where it is decided, begins, is said or is over. How long a body may be stands in `pp_laws_fields`; what is said of the disk
//! beside it, and which bytes an exchange brings, is not said here.
//!
//! Takes no memory, and does nothing when the program runs.
#![tactic(auto)]

mod decided; // what was decided, and how far a reply goes

pub use decided::replies_are_decided;
