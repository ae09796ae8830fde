// What is due to a client (RFC 2616, section 8.1; `specs/Dues.antt` says which).
use pp_world::{Cause, Decision};

/// What is due to a client.
#[derive(Clone, Copy, Debug, PartialEq, Eq)]
pub enum Due {
    /// A decision on its request.
    Decide(Decision),
    /// A cut, for this cause.
    CutOff(Cause),
}
