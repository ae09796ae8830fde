//! One connection to an origin: what is asked there, and what comes (RFC 2616, section 8.1.2.2).
//!
//! Asks are pushed behind one another, and each may be withdrawn while no byte of it was taken. A
//! `Pipe` lends what is to be written, and is fed what came in pieces of any size. It cuts the bytes
//! into responses, reads over interim ones, and answers step by step: a head, runs of data, an end.
//! The first response is that to the first ask.
//!
//! To the layer above: a pipe is a `Line` of `specs/Line.antt`. What is written is the texts of the
//! asks in their order, without the withdrawn ones. A step is that of `specs/Feeding.antt`: `Bad`
//! means that no continuation is a response, or that none was asked for, and `Idle` that all bytes
//! are used. However the bytes are cut, the steps tell the `tale` of the joined bytes.
//!
//! Only `new` takes memory. A head is kept until its response is whole, and read anew from its front
//! with each piece that comes of it. Which connection an ask goes to is for others.
#![tactic(auto)]

mod answer; // where in a response the bytes stand
mod asks; // the asks that are not answered whole
mod authentication; // requests that authenticate their connection
mod fate; // what becomes of the connection behind a response
mod front; // the head at the front of what came
mod heading; // the heads of responses, in pieces
mod outgoing; // the bytes that are to be written
mod pipe; // a connection
mod run; // the next run of data of a body
mod step; // what the bytes that came tell

pub use asks::MAX_ASKS;
pub use authentication::binds_connection;
pub use fate::stays_open;
pub use outgoing::OUT_ROOM;
pub use pipe::{Full, Pipe};
pub use step::Step;
