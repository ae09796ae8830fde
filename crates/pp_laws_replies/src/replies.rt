// What is said to each client.
ghost use Rattle.pp_laws_replies.specs.Replies.{RepliesInOrder};
ghost use Rattle.pp_laws_replies.specs.Shown.{RepliesShowTheirVersion};

/// All that is said to a client is one whole reply to each of the first requests that were heard, in their
/// order, and then a front of a reply to the next one; and nothing behind a reply that closes.
pub fn replies_are_in_order()
    ensures order { RepliesInOrder }
{}

/// A reply that is read from the cache shows one version: its head tells the length of that version, for
/// what was decided; each byte of its body stands at its place in it; and what it is read from is of it.
pub fn replies_show_their_version()
    ensures shows { RepliesShowTheirVersion }
{}
