ghost use Rattle.rules.specs.Deciding.{SealingLaw};

/// That a specification is sealed, or refused in one way only.
pub fn sealing_law_stands()
    ensures { SealingLaw }
{}
