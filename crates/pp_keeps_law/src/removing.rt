// Entries that stand no more.
ghost use Rattle.pp_keeps_law.specs.Keeps.{TakingsLeadOn};

/// The entry under an outdated name is noted as gone and taken away, where the law lets it; and the turn stands as before it.
pub fn takings_lead_on()
    ensures { TakingsLeadOn }
{}
