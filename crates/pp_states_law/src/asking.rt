// Bytes are asked on a connection.
ghost use Rattle.pp_states_law.specs.Askings.{BodiesAreTheLaws, TextsAreTheLaws};

/// Of the text of the exchange that is asked next there.
pub fn texts_are_the_laws()
    ensures texts { TextsAreTheLaws }
{}

/// Of the body of its request.
pub fn bodies_are_the_laws()
    ensures bodies { BodiesAreTheLaws }
{}
