ghost use Rattle.std.specs.Prelude.{◌<◌, MatchResult};
ghost use Rattle.schemes.specs.Faults.{scheme_fault};
ghost use Rattle.schemes.specs.Meanings.{IsNoVertex};

use crate::faults::{SchemeFault, Which};

/// Whether x and y are vertices where there are `count`; refuses the first that is none.
pub(crate) fn check_vertices(count: usize, x: usize, y: usize) -> Result<(), SchemeFault>
    ensures { MatchResult result (λ _. (x < count) × (y < count)) (λ f. IsNoVertex count x y (scheme_fault f)) }
{
    if x >= count {
        return Err(SchemeFault::NoVertex {
            which: Which::First,
        });
    }
    if y >= count {
        return Err(SchemeFault::NoVertex {
            which: Which::Second,
        });
    }
    Ok(())
}
