ghost use Rattle.std.specs.Prelude.{◌≡◌};
ghost use Rattle.std.proofs.Props.{props};
ghost use Rattle.model.specs.Runs.{Placed};
ghost use Rattle.conformance.specs.Groups.{Grouped};
ghost use Rattle.conformance.specs.Links.{HasEdges, Linked, joins_prop};
ghost use Rattle.conformance.specs.Trials.{trial_run, trial_spec};

use crate::group_table::Groups;
use crate::trial::Trial;
use graphs::graph::Graph;
use rules::edge_graph::edge_graph;

/// A trial whose copies and steps are as the specification wants them, with what tells the derived edges of its run: the edges of the
/// specification, the pairs of origins that a derived edge can have, and the place of each copy in its group.
#[derive(Drop)]
pub(crate) struct Derivation<'a> {
    pub(crate) trial: Trial<'a>,
    pub(crate) edges: Graph,
    pub(crate) links: Graph,
    pub(crate) groups: Groups,
    ghost placed: { ∥ Placed (trial_spec trial) (trial_run trial) ∥₁ },
    ghost drawn: { HasEdges (trial_spec trial) edges } by { Prim.hlevel (props, joins_prop) },
    ghost linked: { ∥ Linked (trial_spec trial) links ∥₁ },
    ghost grouped: { Grouped (trial_run trial) groups } by { Prim.hlevel props },
}

impl<'a> Derivation<'a> {
    /// What tells the derived edges of this run.
    pub(crate) fn of(trial: Trial<'a>) -> Self
        requires { Placed (trial_spec trial) (trial_run trial) }
        ensures { result.trial ≡ trial.entry }
    {
        let edges = edge_graph(trial.specification);
        Derivation {
            trial,
            edges,
            links: trial.links(edges),
            groups: trial.groups(),
        }
    }
}
