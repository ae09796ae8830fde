//! Opening: a folder of files becomes a store.
//!
//! A file is an entry where its head block is in the grammar, it has all that its gates keep, and it is
//! named for its key. A gate that is open behind one that is not vouches for nothing: it is closed
//! before the entry counts, so that no later body comes to stand under it.
//!
//! To the layer above: where nothing failed, the store has just the entries of the folder, in the order
//! of their names, of which at most the first 65,536 are looked at; it may hold more than it would keep
//! anew. A name on which something failed is closed, and has no entry (`Opens` of `specs/Opening.antt`).
//! At every moment each image that a crash may leave has the same entries under the same names
//! (`SameEntries`), with bytes that were sent where those of the folder were (`OpensBacked`), as those are
//! that a crash left of a life which kept it so (`what_is_left_is_backed`). In the end no gate is open behind what an entry keeps (`Holds` of `pp_store`).
//! Where all names were looked at, an entry that a crash then leaves stands under a kept or a closed name
//! (`Covers` of `pp_store`). Nothing is written but zeros over such gates.
//!
//! Takes memory for the names and for the store. What becomes of the entries then is for `pp_store`.
#![tactic(auto)]

mod examine; // the file of one name
mod faults; // why a folder was not opened
mod lives; // from one life to the next
mod opening; // the names of a folder, one after another
mod strays; // gates that are open behind one that is not

pub use faults::RecoverFault;
pub use lives::what_is_left_is_backed;
pub use opening::open;
