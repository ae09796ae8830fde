// So many bytes are said as the law says them.
ghost use Rattle.pp_seats_law.specs.Saying.{EndingsAreTheLaws, EndsAreTheSame, SayingsAreTheLaws};

/// Bytes of the interim answer, of the head or page, of the instance or of what is passed: as long as some are left, the seat
/// shows what the law makes of its client; and where none are, the reply is over in the words of both, and the next request
/// stands.
pub fn sayings_are_the_laws()
    ensures said { SayingsAreTheLaws }
    ensures over { EndsAreTheSame }
    ensures ended { EndingsAreTheLaws }
{}
