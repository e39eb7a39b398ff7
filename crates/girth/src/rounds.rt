ghost use Rattle.std.specs.Prelude.{◌≡◌, ◌+◌, ◌-◌, ◌≤◌};
ghost use Rattle.walks.specs.Steps.{blocks};
ghost use Rattle.walks.specs.Trail.{places};
ghost use Rattle.walks.specs.Stamps.{Stamped, Below};
ghost use Rattle.girth.specs.Model.{witness, shortest};

use crate::Cycle;
use index::rows::Graph;
use walks::meet;
use walks::trail::Trail;

// The cycle of n checks that a trail holds.
fn witness(n: usize, t: Trail) -> Cycle
    ensures { result ≡ witness n t }
{
    let Trail { checks, bits, .. } = t;
    Cycle { n, checks, bits }
}

// A cycle of the fewest checks, below `half` of them.
pub fn shortest_below(graph: &Graph, half: usize, seen: &mut [u16]) -> Option<Cycle>
    requires { (half ≤ places + 1) × Stamped graph.now.rows.plan seen.old × Below seen.old 1 }
    ensures { result ≡ shortest (blocks graph.now.rows.plan) (half - 2) 2 }
{
    for n in 2..half {
        if let Some(t) = meet::short_cycle(graph, n, seen) {
            return Some(witness(n, t));
        }
    }
    None
}
