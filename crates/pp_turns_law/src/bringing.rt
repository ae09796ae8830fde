// What the exchanges bring to an instance (RFC 7233, sections 4.1 and 4.3; ours: what is near).
ghost use Rattle.pp_turns_law.specs.Brings.{AsksAreTheLaws, BringsAreTheLaws, BroughtIsTheLaws, ProvidedIsTheLaws, ServesAreTheLaws};

/// An exchange asks for an offset, brings it, or brings something of what a reply still wants; one of them brings it, and the next
/// byte is there or comes.
pub fn brings_are_the_laws()
    ensures asks { AsksAreTheLaws }
    ensures brings { BringsAreTheLaws }
    ensures serves { ServesAreTheLaws }
    ensures brought { BroughtIsTheLaws }
    ensures provided { ProvidedIsTheLaws }
{}
