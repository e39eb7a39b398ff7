ghost use Rattle.std.specs.Prelude.{◌≡◌, true, false, cond, [], ◌∷◌, ◌+◌, ◌*◌, ◌<◌, ◌≤◌, length, set};
ghost use Rattle.walks.specs.Steps.{blocks};
ghost use Rattle.index.specs.Index.{NextOf};
ghost use Rattle.trees.specs.Tree.{block, parent, pack, packed, step_to, tree};
ghost use Rattle.trees.specs.Grow.{Placed, Grew, open_at};

use exponent::Shape;
use exponent::plan::Plan;
use exponent::position::Position;
use index::rows::Graph;

// Stores a number where the list has a place for it.
fn put(work: &mut [u64], at: usize, x: u64)
    ensures { work.new ≡ set work.old at x }
{
    if at < work.len() {
        work[at] = x;
    }
}

// A node as one number.
fn pack(vertex: usize, left: usize, side: usize, from: usize) -> u64
    requires { (vertex < 2097152) × (left < 16) × (side < 2) × (from ≤ 512) }
    ensures { result ≡ pack vertex left side from }
{
    (((vertex * 16 + left) * 2 + side) * 1024 + from) as u64
}

// The node of a bit or of a check, as one number.
fn node(shape: Shape, bit: bool, left: usize, p: Position) -> u64
    requires { (block bit p < 512) × (shape.lift ≤ 4096) × (p.voltage < shape.lift) × (left < 16) × (parent bit p ≤ 512) }
    ensures { result ≡ packed shape.lift bit left p }
{
    if bit {
        pack(walks::number(p.col, shape.lift, p.voltage), left, 1, p.row)
    } else {
        pack(walks::number(p.row, shape.lift, p.voltage), left, 0, p.col)
    }
}

// Writes one node, or has no place for it.
#[tactic(auto, using(writing::proofs::Wrote::wrote_one, crate::specs::Grow::full, crate::specs::Grow::grown))]
fn leaf(work: &mut [u64], at: usize, limit: usize, node: u64) -> Option<usize>
    ensures { Grew work.old at limit (node ∷ []) work.new result }
{
    if limit <= at {
        return None;
    }
    put(work, at, node);
    Some(at + 1)
}

// The next filled row of a bit's column, or filled column of a check's row, from `from` on.
fn next_step(graph: &Graph, bit: bool, p: Position, from: usize) -> Option<usize>
    requires { Placed graph.now.rows.plan.entries.now graph.now.rows.plan.shape bit p }
    ensures { NextOf (open_at graph.now.rows.plan.entries.now graph.now.rows.plan.shape bit p) from (cond bit graph.now.rows.plan.shape.rows graph.now.rows.plan.shape.cols) result }
{
    if bit {
        graph.next_row(from, p.col)
    } else {
        graph.rows.next(p.row, from)
    }
}

// From a bit to its check in row i, or from a check to its bit in column i.
fn step_to(plan: &Plan, bit: bool, p: Position, i: usize) -> Option<Position>
    requires { Placed plan.now.entries.now plan.now.shape bit p × (i < cond bit plan.now.shape.rows plan.now.shape.cols) }
    ensures { result ≡ step_to (blocks plan.now) bit p i }
{
    if bit {
        walks::to_row(plan, p, i)
    } else {
        walks::to_column(plan, p, i)
    }
}

// Writes the nodes from a bit or a check on, where `left` edges may follow; stops at the limit. The last nodes are written
// without a call. It is inlined where the side is known, so that no test of it is left in the loop.
#[inline(always)]
#[cycle(grow)]
fn grow(
    graph: &Graph,
    bit: bool,
    left: usize,
    p: Position,
    work: &mut [u64],
    at: usize,
    limit: usize,
) -> Option<usize>
    requires { (0 < left) × (left < 16) × Placed graph.now.rows.plan.entries.now graph.now.rows.plan.shape bit p }
    ensures { Grew work.old at limit (tree (blocks graph.now.rows.plan) bit left p) work.new result }
{
    if limit <= at {
        return None;
    }
    // Copied, so that it need not be read again after each node that is written.
    let here = *graph;
    let shape = here.rows.plan.shape;
    put(work, at, node(shape, bit, left, p));
    let mut end = at + 1;
    let mut from = 0;
    while let Some(i) = next_step(&here, bit, p, from) {
        from = i + 1;
        let Some(q) = step_to(&here.rows.plan, bit, p, i) else {
            continue;
        };
        let grown = if left == 1 {
            leaf(work, end, limit, node(shape, !bit, 0, q))
        } else if bit {
            at_check(graph, left - 1, q, work, end, limit)
        } else {
            at_bit(graph, left - 1, q, work, end, limit)
        };
        end = grown?;
    }
    Some(end)
}

// Writes the nodes from a bit on.
#[cycle(grow)]
pub fn at_bit(
    graph: &Graph,
    left: usize,
    p: Position,
    work: &mut [u64],
    at: usize,
    limit: usize,
) -> Option<usize>
    requires { (0 < left) × (left < 16) × Placed graph.now.rows.plan.entries.now graph.now.rows.plan.shape true p }
    ensures { Grew work.old at limit (tree (blocks graph.now.rows.plan) true left p) work.new result }
{
    grow(graph, true, left, p, work, at, limit)
}

// Writes the nodes from a check on. It stays a function of its own: inlined into the loop at a bit, its loop would test each node for the
// last one.
#[inline(never)]
#[cycle(grow)]
pub fn at_check(
    graph: &Graph,
    left: usize,
    p: Position,
    work: &mut [u64],
    at: usize,
    limit: usize,
) -> Option<usize>
    requires { (0 < left) × (left < 16) × Placed graph.now.rows.plan.entries.now graph.now.rows.plan.shape false p }
    ensures { Grew work.old at limit (tree (blocks graph.now.rows.plan) false left p) work.new result }
{
    grow(graph, false, left, p, work, at, limit)
}
