ghost use Rattle.std.specs.Prelude.{◌≡◌};
ghost use Rattle.schemes.specs.Deciding.{LearningLaw, QuestionLaw};
ghost use Rattle.schemes.specs.Matrices.{matrix_meaning};
ghost use Rattle.schemes.specs.Tallies.{TallyLaw};
ghost use Rattle.schemes.specs.Walkers.{walker_meaning};

use crate::matrix::Matrix;
use crate::scheme::Scheme;
use crate::walker::Walker;

/// That a question has one outcome.
pub fn question_law_stands()
    ensures { QuestionLaw }
{}

/// That after a specification is learnt, answers are those of its paths.
pub fn learning_law_stands()
    ensures { LearningLaw }
{}

/// That the tally counts questions modulo 2^32, and so is what it was after 2^32 of them.
pub fn tally_law_stands()
    ensures { TallyLaw }
{}

/// What a matrix and a walker are to whoever uses them.
pub fn meaning_law_stands()
    ensures matrix { ⟦<Matrix as Scheme>⟧.meaning ≡ matrix_meaning }
    ensures walker { ⟦<Walker as Scheme>⟧.meaning ≡ walker_meaning }
{}
