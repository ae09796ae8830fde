//! Worked exchanges over the crates of the cache: tables of calls, each call with what it answers.
//!
//! `instances` and `evictions` have the instances, their chunks and what goes of them, `cells` one pool and the cells of one
//! instance, `lines` the exchanges under way, `links` the open connections, and `heads` and `replies` what is decided and
//! replied for a request and a response.
//! An exchange of one of these is a table, which one interpreter plays, and it says in words where that goes otherwise than
//! wanted. To prove a test is dear, so what they share is proved once.
//!
//! Which answer a definition gives is worked out in the rows of each crate's `proofs/`. Here the
//! compiled calls are run.
#![tactic(auto)]

#[cfg(test)]
mod cache; // instances and a pool that agree
#[cfg(test)]
mod cells; // one pool, and the cells of one instance
#[cfg(test)]
mod evictions; // which chunk goes
#[cfg(test)]
mod exchanges; // exchanges under way, act by act
#[cfg(test)]
mod fields; // fields and times of responses
#[cfg(test)]
mod heads; // a request, a response, and what is made of them
#[cfg(test)]
mod instances; // rows by key, and their bytes
#[cfg(test)]
mod lines; // which exchange waits, and which response comes next
#[cfg(test)]
mod links; // connections that are open
#[cfg(test)]
mod office; // open connections and a world, step by step
#[cfg(test)]
mod replies; // what is replied
#[cfg(test)]
mod rows; // what is known of an instance
#[cfg(test)]
mod saying; // where a table goes otherwise than wanted
#[cfg(test)]
mod steps; // a table of calls on the cache
#[cfg(test)]
mod wire; // a world that puts down its calls
