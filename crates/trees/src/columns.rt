ghost use Rattle.std.specs.Prelude.{◌≡◌, false, ◌<◌, ◌≤◌, length};
ghost use Rattle.walks.specs.Steps.{blocks};
ghost use Rattle.trees.specs.Tree.{column_tree, overfull};
ghost use Rattle.trees.specs.Pairs.{Pair, SomePair, Decides};
ghost use Rattle.trees.specs.Grow.{Grew};

use crate::{grow, sorted};
use exponent::position::Position;
use index::rows::Graph;

// Writes the tree of column j; stops at the limit.
fn column_tree(
    graph: &Graph,
    depth: usize,
    j: usize,
    work: &mut [u64],
    limit: usize,
) -> Option<usize>
    requires { (0 < depth) × (depth < 16) × (j < graph.now.rows.plan.shape.cols) }
    ensures { Grew work.old 0 limit (column_tree (blocks graph.now.rows.plan) depth j) work.new result }
{
    let root = Position {
        row: graph.rows.plan.shape.rows,
        col: j,
        voltage: 0,
    };
    grow::at_bit(graph, depth, root, work, 0, limit)
}

// Whether the tree of column j, for which the list has places, has a pair.
#[tactic(auto, using(crate::proofs::Growing::grew_full))]
fn column_pair(graph: &Graph, depth: usize, j: usize, work: &mut [u64]) -> bool
    requires { (0 < depth) × (depth < 16) × (j < graph.now.rows.plan.shape.cols) × (length (column_tree (blocks graph.now.rows.plan) depth j) ≤ length work.old) }
    ensures { Decides result (Pair (column_tree (blocks graph.now.rows.plan) depth j)) }
{
    let limit = work.len();
    match column_tree(graph, depth, j, work, limit) {
        Some(n) => sorted::has_pair(&mut work[..n]),
        None => false,
    }
}

// Whether the tree of some column has a pair.
pub fn any_pair(graph: &Graph, depth: usize, work: &mut [u64]) -> bool
    requires { (0 < depth) × (depth < 16) × (overfull (blocks graph.now.rows.plan) depth (length work.old) ≡ false) }
    ensures { Decides result (SomePair (blocks graph.now.rows.plan) depth) }
{
    for j in 0..graph.rows.plan.shape.cols {
        if column_pair(graph, depth, j, work) {
            return true;
        }
    }
    false
}

// Whether the tree of some column has more nodes than `places`. Of the trees nothing is kept.
#[tactic(auto, using(crate::proofs::Growing::grew_over, crate::proofs::Overfull::overfull_at, crate::proofs::Overfull::overfull_none))]
pub fn any_overfull(graph: &Graph, depth: usize, places: usize) -> bool
    requires { (0 < depth) × (depth < 16) }
    ensures { result ≡ overfull (blocks graph.now.rows.plan) depth places }
{
    let mut place = [0u64; 1];
    for j in 0..graph.rows.plan.shape.cols {
        if column_tree(graph, depth, j, &mut place, places).is_none() {
            return true;
        }
    }
    false
}
