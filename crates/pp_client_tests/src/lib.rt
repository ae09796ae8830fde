//! Worked exchanges with one client: tables of acts, each with what is to come of it, as it is compiled.
//!
//! What a call answers is proved in `pp_client`, and what it asks for is tested before it. A course is a table, one function
//! plays it, and it says in words where it went otherwise than wanted. To prove a test is dear, so what they share is proved once.
#![tactic(auto)]

#[cfg(test)]
mod acts; // what is done with a client, and how it is played
#[cfg(test)]
mod bodies; // bodies of requests
#[cfg(test)]
mod cache; // an instance in memory
#[cfg(test)]
mod parts; // texts that are wanted
#[cfg(test)]
mod pipelined; // thirty requests, one behind the other
#[cfg(test)]
mod replies; // what is said
#[cfg(test)]
mod requests; // what is current
#[cfg(test)]
mod saying; // that nothing is said
#[cfg(test)]
mod talk; // a client, each call tested before it
