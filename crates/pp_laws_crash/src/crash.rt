// What a crash leaves, and what is read back.
ghost use Rattle.pp_laws_crash.specs.Crash.{AllHeldWasSent, AllSaidWasSent, EachImageIsBacked};

/// Whatever a crash may leave behind a lawful log, each byte that an entry of it keeps was sent by an
/// origin, for its key, at its offset, under its version.
pub fn each_image_is_backed()
    ensures backed { EachImageIsBacked }
{}

/// Every byte in memory was sent by an origin, for that key, at that offset, under that version, also
/// where it was read back from the disk.
pub fn held_bytes_were_sent()
    ensures held { AllHeldWasSent }
{}

/// Every byte of a body that is said to a client from memory was sent by an origin, for the key that
/// the client's request names, at the offset that is next, under the version that it is answered from.
pub fn said_bytes_were_sent()
    ensures said { AllSaidWasSent }
{}
