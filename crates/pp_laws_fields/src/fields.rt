// Fields, and the lengths of bodies.
ghost use Rattle.pp_laws_fields.specs.Fields.{TurnsKeepFields};

/// Of each row, in memory or on the disk, the fields are those that are kept of a response, and the body has at most 2^30 bytes.
pub fn kept_ones_stay_kept()
    ensures kept { TurnsKeepFields }
{}
