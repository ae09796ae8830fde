// The next run of an instance.
ghost use Rattle.pp_keeps_law.specs.Keeps.{RunsLeadOn};

/// It is drafted with its entry, or sealed behind what is kept, and noted, where the law lets it; and the turn stands as before it.
pub fn runs_lead_on()
    ensures { RunsLeadOn }
{}
