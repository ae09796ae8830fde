//! What a lawful log asks origins for: how many exchanges there are at most, for whom, and in which order.
//!
//! `pp_law` says which happening may follow which. Here stands what follows of exchanges: each request
//! has one at most, one that nobody waits for has a place, and so there are never more than 768; on a
//! connection they are asked in the order of its line; and one fetch is enough for many requests.
//!
//! To the layer above: each law is the clause of a function that does nothing. Of what was asked on a
//! connection each piece is said to be the next; `pp_laws_lines` says it as one stream.
//!
//! Takes no memory, and does nothing when the program runs.
#![tactic(auto)]

mod asks; // how many there are, and for whom
mod orders; // what is asked next, and what is not asked twice

pub use asks::{exchanges_are_few, few_exchanges_wait, one_exchange_each};
pub use orders::{asks_are_in_order, one_fetch_for_many};
