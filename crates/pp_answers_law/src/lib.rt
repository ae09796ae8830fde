//! What the final head of a response makes of clients, exchanges and rows, in the program and in the law.
//!
//! Where the state of the program shows that of the law (`ShowsSteps` of `pp_states_law`), and an exchange whose head comes shows one of the
//! law's, the words of `pp_answers` leave a state that shows what the law makes: its request is told, what is of no use costs an attempt, what
//! has a version joins the row of its key or makes another, a 304 renews that row, and what has none is passed or dropped. So the whole head of
//! a response to a Fetch or Validate is taken as the law takes it, where memory is refused for no row; that of one that is passed, with the rows
//! that it outdates; and that to the ask of a follower, with what it costs where it is no use for that follower.
//!
//! To the layer above: each equation is the clause of a function that does nothing. By what a head is judged stands in `pp_heads_law`; that a
//! row which is kept of the exchange's key comes into memory before is for others.
//!
//! Takes no memory, and does nothing when the program runs.
#![tactic(auto)]

mod dropping; // what comes is of no use
mod lives; // lives that were given, and what was joined
mod naming; // the rows of other places
mod outdating; // a response that is passed, and the rows that it outdates
mod owning; // the head of a response to an ask of the cache's own, whole
mod passing; // a response without a version
mod settling; // what a response does to the row of its key
mod spans; // the span that comes
mod taking; // the final head, whole
mod telling; // what the request of an exchange is told

pub use dropping::answers_are_dropped_as_the_laws;
pub use lives::{lives_go_on_behind_heads, what_heads_join_is_there};
pub use naming::names_are_the_laws;
pub use outdating::{passed_heads_are_the_laws, rows_are_outdated_as_the_laws};
pub use owning::{own_heads_are_the_laws, part_heads_are_the_laws};
pub use passing::responses_are_passed_as_the_laws;
pub use settling::{rows_are_joined_as_the_laws, rows_are_made_as_the_laws};
pub use spans::spans_are_the_laws;
pub use taking::final_heads_are_the_laws;
pub use telling::tells_are_the_laws;
