//! How much memory a lawful log takes: the chunks that are used never exceed the critical mark.
//!
//! `pp_law` says which happening may follow which. Here stands what follows of the pool: whatever
//! clients and origins do, at each moment no more chunks are used than the mark says. One read brings
//! at most 24 of them, and before the next event so many are evicted that there is room for 32.
//!
//! To the layer above: the law is the clause of a function that does nothing. `proofs/` has, beside it,
//! which changes the steps of the law are made of, so that what each change keeps each step keeps.
//!
//! Takes no memory, and does nothing when the program runs.
#![tactic(auto)]

mod pool; // the critical mark

pub use pool::chunks_are_within_the_mark;
