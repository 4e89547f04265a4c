ghost use Rattle.formats.specs.Deciding.{ReadingLaw, RunReadingLaw};

/// That a specification file is accepted, or refused in one way only.
#[tactic(auto, using(crate::proofs::Decided::reading_law))]
pub fn reading_law_stands()
    ensures { ReadingLaw }
{}

/// That a run file is accepted, or refused in one way only, whatever numbers of vertices and blocks it is held against.
#[tactic(auto, using(crate::proofs::Decided::run_reading_law))]
pub fn run_reading_law_stands()
    ensures { RunReadingLaw }
{}
