ghost use Rattle.std.specs.Prelude.{◌≡◌, ◌+◌, ◌*◌, ◌<◌, ◌≤◌, [], ◌∷◌, length};
ghost use Rattle.walks.specs.Steps.{AtCheck, AtBit, blocks};
ghost use Rattle.walks.specs.Ways.{from_bit, from_check};
ghost use Rattle.walks.specs.Trail.{push};
ghost use Rattle.walks.specs.Stamps.{Stamped, Ran};

use crate::Corner;
use crate::trail::Trail;
use exponent::Shape;
use exponent::position::Position;
use index::rows::{Graph, Rows};

// At the end of a way: whether its bit bears the stamp; else it is stamped.
fn arrive(shape: Shape, p: Position, seen: &mut [u16], stamp: u16) -> Option<Trail>
    requires { (p.col < 512) × (shape.lift ≤ 4096) × (p.voltage < shape.lift) × (p.col * shape.lift + p.voltage < length seen.old) }
    ensures { Ran stamp (record { joints = []; end = p.col * shape.lift + p.voltage } ∷ []) seen.old result seen.new }
{
    let bit = crate::number(p.col, shape.lift, p.voltage);
    if seen[bit] == stamp {
        return Some(Trail::empty(bit));
    }
    seen[bit] = stamp;
    None
}

// The way `rest` behind the check of p and the bit of q.
fn behind(shape: Shape, p: Position, q: Position, rest: Trail) -> Trail
    requires { (p.row < 512) × (q.col < 512) × (shape.lift ≤ 4096) × (p.voltage < shape.lift) × (q.voltage < shape.lift) }
    ensures { result ≡ push (p.row * shape.lift + p.voltage) (q.col * shape.lift + q.voltage) rest }
{
    let check = crate::number(p.row, shape.lift, p.voltage);
    let bit = crate::number(q.col, shape.lift, q.voltage);
    rest.push(check, bit)
}

// The ways that end behind a check: its bits, but the one just left, from the corner on.
#[tactic(auto, using(crate::proofs::Skips::skip_columns, crate::proofs::Skips::no_columns, crate::proofs::Loops::left_stay, crate::proofs::Loops::left_miss, crate::proofs::Loops::left_hit, crate::proofs::Steps::ends_ran))]
fn ends(rows: &Rows, corner: Corner, p: Position, seen: &mut [u16], stamp: u16) -> Option<Trail>
    requires { AtCheck rows.now.plan.entries.now rows.now.plan.shape p × Stamped rows.now.plan seen.old }
    ensures { Ran stamp (from_check (blocks rows.now.plan) corner (from_bit (blocks rows.now.plan) corner 0) p) seen.old result seen.new }
{
    // Copied, so that it need not be read again after each stamp.
    let here = *rows;
    let shape = here.plan.shape;
    let mut from = corner.col;
    while let Some(col) = here.next(p.row, from) {
        from = col + 1;
        let Some(q) = crate::to_column(&here.plan, p, col) else {
            continue;
        };
        if let Some(rest) = arrive(shape, q, seen, stamp) {
            return Some(behind(shape, p, q, rest));
        }
    }
    None
}

// Goes on from a bit, over `depth` checks: to each check but the one just left, from the corner on.
#[cycle(at_bit_at_check)]
pub fn at_bit(
    graph: &Graph,
    corner: Corner,
    depth: usize,
    p: Position,
    seen: &mut [u16],
    stamp: u16,
) -> Option<Trail>
    requires { (0 < depth) × AtBit graph.now.rows.plan.entries.now graph.now.rows.plan.shape p × Stamped graph.now.rows.plan seen.old }
    ensures { Ran stamp (from_bit (blocks graph.now.rows.plan) corner depth p) seen.old result seen.new }
{
    let here = *graph;
    let mut from = corner.row;
    while let Some(row) = here.next_row(from, p.col) {
        from = row + 1;
        let Some(q) = crate::to_row(&here.rows.plan, p, row) else {
            continue;
        };
        let met = if depth == 1 {
            ends(&graph.rows, corner, q, seen, stamp)
        } else {
            at_check(graph, corner, depth - 1, q, seen, stamp)
        };
        if met.is_some() {
            return met;
        }
    }
    None
}

// Goes on from a check: to each bit but the one just left, from the corner on, and over `depth` checks behind it.
#[cycle(at_bit_at_check)]
pub fn at_check(
    graph: &Graph,
    corner: Corner,
    depth: usize,
    p: Position,
    seen: &mut [u16],
    stamp: u16,
) -> Option<Trail>
    requires { (0 < depth) × AtCheck graph.now.rows.plan.entries.now graph.now.rows.plan.shape p × Stamped graph.now.rows.plan seen.old }
    ensures { Ran stamp (from_check (blocks graph.now.rows.plan) corner (from_bit (blocks graph.now.rows.plan) corner depth) p) seen.old result seen.new }
{
    let here = *graph;
    let shape = here.rows.plan.shape;
    let mut from = corner.col;
    while let Some(col) = here.rows.next(p.row, from) {
        from = col + 1;
        let Some(q) = crate::to_column(&here.rows.plan, p, col) else {
            continue;
        };
        if let Some(rest) = at_bit(graph, corner, depth, q, seen, stamp) {
            return Some(behind(shape, p, q, rest));
        }
    }
    None
}
