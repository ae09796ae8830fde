// Where bytes come from.
ghost use Rattle.pp_laws.specs.Origin.{HeldWasSent, SaidWasSent, SentOnlyGrows};

/// What origins sent is never forgotten, over all lives.
pub fn sent_only_grows()
    ensures grows { SentOnlyGrows }
{}

/// Every byte in memory was sent by an origin, for that key, at that offset, under that version, if
/// what was read back from the disk was.
pub fn held_bytes_were_sent()
    ensures held { HeldWasSent }
{}

/// Every byte of a body that is said to a client from memory was sent by an origin, for the key that
/// the client's request names, at the offset that is next, under the version that it is answered
/// from, if what was read back from the disk was.
pub fn said_bytes_were_sent()
    ensures said { SaidWasSent }
{}
