//! What one origin is asked and sends, and how it ends (RFC 2616, sections 4.4, 5, 6, 8.1, 8.2 and 10.1): step 1 of a turn, on the
//! origins' side.
//!
//! One call reads or writes once. What came is cut into responses in the order of the connection's line, and where its connection
//! ended, or the response is none, the line is lost or the connection closed. Who is silent too long is given up (ours).
//!
//! To the layer above: what a write asks is that of `specs/Asked.antt`; what a read brings, that of `specs/Gots.antt`; what becomes of a
//! line where its response is whole or is none, or its connection ended, that of `specs/Responses.antt`; who is idle is given up as
//! `Origins` of `pp_desk` says.
//!
//! What a head makes of rows and clients is for `pp_answers`, what its body does for `pp_steps`, how bytes are cut for `pp_pipe`.
#![tactic(auto)]

mod asking; // what an origin is asked
mod ended; // a connection to an origin that ended
mod got; // what one read of an origin brings
mod idle; // who is silent too long
mod responses; // what an origin sent

pub use asking::ask;
pub use ended::gone;
pub use idle::close_idle;
pub use responses::receive;
