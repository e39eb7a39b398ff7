ghost use Rattle.std.specs.Prelude.{◌≡◌, cond, ◌+◌, ◌*◌, ◌<◌, ◌≤◌};
ghost use Rattle.walks.specs.Steps.{blocks};
ghost use Rattle.walks.specs.Ways.{odd, roots, ways};
ghost use Rattle.walks.specs.Meeting.{meeting, short_cycle};
ghost use Rattle.walks.specs.Trail.{places};
ghost use Rattle.walks.specs.Stamps.{Stamped, Ran, Below, Answered};

use crate::trail::Trail;
use crate::{Corner, search, trail};
use exponent::Shape;
use exponent::position::Position;
use index::rows::Graph;

// All ways of n edges from root k, held to the stamps.
#[tactic(auto, unfolding(crate::specs::Ways::ways))]
fn ways_from(graph: &Graph, n: usize, k: usize, seen: &mut [u16], stamp: u16) -> Option<Trail>
    requires { (2 ≤ n) × (k < roots (blocks graph.now.rows.plan) n) × Stamped graph.now.rows.plan seen.old }
    ensures { Ran stamp (ways (blocks graph.now.rows.plan) n k) seen.old result seen.new }
{
    let shape = graph.rows.plan.shape;
    let depth = n / 2;
    if n % 2 == 1 {
        let check = Position {
            row: k,
            col: shape.cols,
            voltage: 0,
        };
        let corner = Corner { row: k, col: 0 };
        search::at_check(graph, corner, depth, check, seen, stamp)
    } else {
        let bit = Position {
            row: shape.rows,
            col: k,
            voltage: 0,
        };
        let corner = Corner { row: 0, col: k };
        search::at_bit(graph, corner, depth, bit, seen, stamp)
    }
}

// A cycle of n checks through root k, where two ways of n edges from it meet: the end of the second is stamped for another run,
// which finds the first. A round has 1,024 stamps, two for each root.
fn meet_at(graph: &Graph, n: usize, k: usize, seen: &mut [u16]) -> Option<Trail>
    requires { (2 ≤ n) × (k < roots (blocks graph.now.rows.plan) n) × (n ≤ places) × Stamped graph.now.rows.plan seen.old × Below seen.old (1024 * n + 2 * k) }
    ensures { Answered (meeting (blocks graph.now.rows.plan) n k) (1024 * n + 2 * k + 2) result seen.new }
{
    let stamp = (1024 * n + 2 * k) as u16;
    let first = ways_from(graph, n, k, seen, stamp)?;
    let next = stamp + 1;
    seen[first.end] = next;
    let second = ways_from(graph, n, k, seen, next)?;
    let z = crate::number(k, graph.rows.plan.shape.lift, 0);
    Some(trail::join(n, z, first, second))
}

// How many roots round n has: a bit of each column, or a check of each row.
fn root_count(shape: Shape, n: usize) -> usize
    ensures { result ≡ cond (odd n) shape.rows shape.cols }
{
    if n % 2 == 0 { shape.cols } else { shape.rows }
}

// A cycle of n checks, where there is none of fewer.
pub fn short_cycle(graph: &Graph, n: usize, seen: &mut [u16]) -> Option<Trail>
    requires { (2 ≤ n) × (n ≤ places) × Stamped graph.now.rows.plan seen.old × Below seen.old (1024 * n) }
    ensures { Answered (short_cycle (blocks graph.now.rows.plan) n) (1024 * (n + 1)) result seen.new }
{
    for k in 0..root_count(graph.rows.plan.shape, n) {
        let met = meet_at(graph, n, k, seen);
        if met.is_some() {
            return met;
        }
    }
    None
}
