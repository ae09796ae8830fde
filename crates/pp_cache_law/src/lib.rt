//! How the cache of the program stands for the table of the law.
//!
//! `specs/Tables.antt` is the relation: the value of a `Cache` shows the instances and chunks of `pp_law`, one each, in their order
//! of use, in the words of both. From it follows that what the program reads of its cache is what the law reads of its table: the
//! row of a key, an instance by its id, whether it stands for its key, how far it is kept on the disk, the bytes of its chunks and
//! which of them are held, how many rows and chunks there are, and which row or chunk goes; and that what a call leaves of the
//! cache shows what the law's own function makes of the table.
//!
//! To the layer above: each equation is the clause of a function that does nothing. It is one part of the proof that the program
//! obeys the law: of clients, exchanges and turns nothing is said here. The words of the program stand in `pp_cache`, which says of
//! each call which it computes.
//!
//! Takes no memory, and does nothing when the program runs.
#![tactic(auto)]

mod changing; // instances that are changed, or leave memory
mod joining; // bytes that a read brings
mod noting; // how far rows are kept on the disk, and which entries stand for them
mod reading; // what is read of the one and of the other
mod settling; // a row that is made
mod standing; // when a cache shows a table
mod using; // chunks that are used, or leave memory

pub use changing::{changes_are_the_laws, retired_ones_leave_as_the_laws};
pub use joining::joins_are_the_laws;
pub use noting::{extents_are_noted_as_the_laws, outdated_ones_are_the_laws};
pub use reading::{bytes_are_the_laws, instances_are_the_laws, leavings_are_the_laws};
pub use settling::{fields_stay_kept, room_is_made_as_the_laws, rows_are_made_as_the_laws};
pub use standing::tables_are_the_laws;
pub use using::uses_are_the_laws;
