//! Worked exchanges about requests, connections and origins: the whole program, run over a world in memory.
//!
//! Each table writes down what clients and origins do, and the bytes that each of them is sent, and the course of each
//! connection. Most are played twice, with each text whole and with every byte alone, since the two must end alike; some with the
//! origin lost behind each byte, or through windows of many sizes. Openings write down the words, the text of the file and which
//! call of the world fails, and what was read, listened on and printed. The demo's script is written down in part, computed by its
//! rule elsewhere, and so is what the log of its lives has.
//!
//! Nothing stands on this crate. What each part promises is proved in the crate of that part; here the parts are tried together,
//! on texts from the standards, hostile ones among them. Exchanges with the cache stand in `pp_cache_exchanges`, beside this
//! crate, so that both are proved at the same time: they are two and not more, since each first reads the whole program.
#![tactic(auto)]

#[cfg(test)]
mod saying; // that nothing is said where all goes as wanted

// Requests and responses.
#[cfg(test)]
mod bad_requests; // requests that are none
#[cfg(test)]
mod bad_responses; // responses that are none
#[cfg(test)]
mod filled; // texts that are as long as may be
#[cfg(test)]
mod framing; // responses however they are delimited
#[cfg(test)]
mod methods; // requests of any method, with bodies
#[cfg(test)]
mod refusals; // requests that are refused with a page
#[cfg(test)]
mod requests; // plain requests, and their replies

// Connections.
#[cfg(test)]
mod connections; // whether a client's connection goes on
#[cfg(test)]
mod half_closed; // clients that end, and wait for their replies
#[cfg(test)]
mod idle; // clients and origins that do nothing
#[cfg(test)]
mod leaving; // clients that are lost
#[cfg(test)]
mod limits; // of clients, connections and buffers
#[cfg(test)]
mod one_ask; // connections that are not for the next request
#[cfg(test)]
mod pipelining; // asks behind one another on a connection
#[cfg(test)]
mod windows; // of many sizes, and of one byte a second

// Origins that are lost, or answer wrongly.
#[cfg(test)]
mod gateways; // answers that cannot be passed
#[cfg(test)]
mod losses; // lost origins are asked again
#[cfg(test)]
mod origin_ends; // origins that end, speak too early, or are slow

// The program's beginning and end, its demo, and simulated lives.
#[cfg(test)]
mod demo_logs; // what the log of the demo's lives has
#[cfg(test)]
mod demo_scripts; // the demo's pages, requests and crashes
#[cfg(test)]
mod exits; // the listener, and the end
#[cfg(test)]
mod opened; // a run, and what it did
#[cfg(test)]
mod openings; // words and texts, and what comes of them
#[cfg(test)]
mod seeds; // simulated lives: their numbers, and how what happens is spelled
