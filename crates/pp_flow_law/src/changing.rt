// One of the exchanges is changed where it stands.
ghost use Rattle.pp_flow_law.specs.Changes.{BodiesAreTheLaws, BytesAreTheLaws, DropsAreNone, ErrandsAreTheLaws, HeadsAreTheLaws, LeavesAreTheLaws, TextsAreTheLaws, WantsAreTheLaws};

/// Its request leaves it.
pub fn leaves_are_the_laws()
    ensures leaves { LeavesAreTheLaws }
{}

/// What it asks is now something else.
pub fn errands_are_the_laws()
    ensures errands { ErrandsAreTheLaws }
{}

/// Bytes of its text were asked, or of its request's body.
pub fn asks_are_the_laws()
    ensures texts { TextsAreTheLaws }
    ensures bodies { BodiesAreTheLaws }
{}

/// Its final head came.
pub fn heads_are_the_laws()
    ensures heads { HeadsAreTheLaws }
{}

/// Bytes of its span came.
pub fn bytes_are_the_laws()
    ensures bytes { BytesAreTheLaws }
{}

/// How far its body is wanted is noted, and how much of it was dropped.
pub fn notes_are_the_laws()
    ensures wants { WantsAreTheLaws }
    ensures drops { DropsAreNone }
{}
