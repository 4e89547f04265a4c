ghost use Rattle.conformance.specs.Deciding.{ConformanceLaw};

/// That a run file is accepted against a specification, or turned down in one way only.
pub fn conformance_law_stands()
    ensures { ConformanceLaw }
{}
