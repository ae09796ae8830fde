// Which row a reply is read from.
ghost use Rattle.pp_laws_replies.specs.ByRow.{RowsAreFreshOrChecked, SourcesAreOfTheKey};

/// Where a request is answered by a row, that is a row of the key that it names, and it is fresh by the
/// clock of then, or the response to that request's own exchange made it or told that it is unchanged.
pub fn rows_are_fresh_or_checked()
    ensures usable { RowsAreFreshOrChecked }
{}

/// Whatever a reply is read from is of the key that its request names.
pub fn sources_are_of_the_key()
    ensures of_the_key { SourcesAreOfTheKey }
{}
