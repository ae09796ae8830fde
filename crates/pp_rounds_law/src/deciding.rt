// All that is decided in one go.
ghost use Rattle.pp_rounds_law.specs.Decisions.{AllLead};

/// One behind the other, each is permitted, and they lead where the law leads.
pub fn all_decisions_lead_as_by_the_law()
    ensures all { AllLead }
{}
