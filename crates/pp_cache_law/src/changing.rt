// What changes the instances of the cache changes the table of the law alike.
ghost use Rattle.pp_cache_law.specs.Changes.{FollowingsAreTheLaws, ForgettingsAreTheLaws, MarksAreTheLaws, RenewalsAreTheLaws};
ghost use Rattle.pp_cache_law.specs.Retires.{LeavingsAreTheLaws, RetiringsAreTheLaws, SweepsAreTheLaws};

/// An instance is the most recently used, is renewed by a later response, is followed by one client more, or leaves memory: the
/// cache shows what the law makes of its table.
pub fn changes_are_the_laws()
    ensures marks { MarksAreTheLaws }
    ensures renewals { RenewalsAreTheLaws }
    ensures followings { FollowingsAreTheLaws }
    ensures forgettings { ForgettingsAreTheLaws }
{}

/// A client less follows an instance, or the row of a key is not known any more: a retired instance leaves memory with its last
/// follower.
pub fn retired_ones_leave_as_the_laws()
    ensures leavings { LeavingsAreTheLaws }
    ensures retirings { RetiringsAreTheLaws }
    ensures sweeps { SweepsAreTheLaws }
{}
