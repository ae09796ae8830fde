// A life that went astray.
ghost use Rattle.pp_rounds_law.specs.Astray.{AllDecisionsStayAstray, DecisionsStayAstray, PlacesStayAstray, RoundsStayAstray};

/// It stays so, as exchanges get their places, as decisions are taken, and over a round.
pub fn lives_stay_astray()
    ensures places { PlacesStayAstray }
    ensures decisions { DecisionsStayAstray }
    ensures all { AllDecisionsStayAstray }
    ensures rounds { RoundsStayAstray }
{}
