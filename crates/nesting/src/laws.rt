ghost use Rattle.nesting.specs.Deciding.{CopiesLaw};

/// That the copies of a run are nested, or the run is refused for them in one way only.
pub fn copies_law_stands()
    ensures { CopiesLaw }
{}
