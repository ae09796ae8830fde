// What was acknowledged is there.
ghost use Rattle.pp_laws_found.specs.Found.{AcknowledgedIsFound, AcknowledgedIsRecovered};

/// Whatever a crash may leave behind a lawful log, it has of each key whose last note is Kept the
/// entry of that version, at least as far as it was noted.
pub fn acknowledged_is_found()
    ensures found { AcknowledgedIsFound }
{}

/// A life that begins behind a lawful log, with what a crash left, has of each such key the row of that
/// version, at least as far as it was noted.
pub fn acknowledged_is_recovered()
    ensures recovered { AcknowledgedIsRecovered }
{}
