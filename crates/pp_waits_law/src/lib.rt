//! A wait leads a turn from its end to where an event is awaited, as by the law, and clients are read there as the law has them read.
//!
//! `specs/Rests.antt`: who is looked at once the wants are written, and what stands behind the wait: the turn shows the law's `rest_with`, each
//! client can be decided, and whoever is not looked at is asleep. `specs/Waits.antt`: where the law permits the wait, it leads there from the end
//! of a turn. In the wants the clients stand first, so that nobody takes a client for an origin that is waited for. `specs/Wanted.antt`: the
//! wants are the law's, as to who is accepted, who is written to, and which origins are asked and read.
//!
//! Which clients are read is settled from wait to wait. `specs/Asleep.antt`: whoever is not looked at in a turn was read at the last wait, which
//! holds as long as nobody falls asleep amid a turn. `specs/Steps.antt`: nobody does, in the event, in what leaves memory, in what is kept on the
//! disk, and in what follows. `specs/Reads.antt`: so at the next wait each client is read that may send more, where there is room for that, and
//! nobody else; and the wait leaves it so. `specs/Good.antt`: all these wants are as good as the law's, so the law permits the wait, and it
//! leads on.
//!
//! Not said: that there is a place left to look at one client more, and what a client that comes leaves of that room; that a turn may end there,
//! which is a premise here (`pp_laws_left` has what `MayEnd` says of the log); and the event itself.
//!
//! To the layer above: each is the clause of a function that does nothing. It is one part of the proof that the program obeys the law.
//!
//! Takes no memory, and does nothing when the program runs.
#![tactic(auto)]

mod ending; // the wants are as good as the law's
mod keeping; // nobody falls asleep
mod reading; // who is read
mod resting; // what a wait leaves
mod waiting; // the wait
mod wanting; // what is waited for

pub use ending::turns_may_end_with_these_wants;
pub use keeping::{nobody_falls_asleep, those_who_were_read_stay};
pub use reading::{clients_are_read_as_by_the_law, waits_leave_those_who_were_read};
pub use resting::{turns_rest_as_the_laws, wants_leave_turns_as_they_were};
pub use waiting::{clients_stand_first, waits_lead_as_by_the_law};
pub use wanting::{accepts_and_origins_are_wanted, says_are_wanted};
