// The weights of a plan (document 02, slip 7), in two lent lists: how many blocks of each row and of each column are filled.
#![tactic(auto)]

ghost use Rattle.std.specs.Prelude.{◌≡◌, ◌<◌, length, get_or};
ghost use Rattle.exponent.specs.Limits.{WellFormed};
ghost use Rattle.weights.specs.declared.Side.TheVariants.{Bits, Checks};
ghost use Rattle.weights.specs.Weights.{lanes, blocks, block_on, weight_of, list_of, weights_of, same, right};

use exponent::block::Block;
use exponent::{Shape, block};

pub mod change; // change.rt: one block changed, the plan and both lists

// No plan has more rows, or columns.
pub const ROWS: usize = 192;

pub const COLS: usize = 512;

// The two sides of the graph. A bit's blocks are those of its column, a check's those of its row: a lane of blocks.
#[derive(Clone, Copy, Debug, PartialEq, Eq)]
pub enum Side {
    Bits,
    Checks,
}

// How many numbers the lists have that are lent to a builder: the plan, its row weights and its column weights.
#[derive(Clone, Copy, Debug, PartialEq, Eq)]
pub struct Room {
    pub plan: usize,
    pub rows: usize,
    pub cols: usize,
}

// How many lanes a side has: columns, or rows.
pub fn lanes(s: Shape, side: Side) -> usize
    ensures { result ≡ lanes s side }
{
    match side {
        Side::Bits => s.cols,
        Side::Checks => s.rows,
    }
}

// How many blocks a lane of a side has.
pub fn blocks(s: Shape, side: Side) -> usize
    ensures { result ≡ blocks s side }
{
    match side {
        Side::Bits => s.rows,
        Side::Checks => s.cols,
    }
}

// Block k of a lane.
pub fn block_on(plan: &[i16], s: Shape, side: Side, lane: usize, k: usize) -> Block
    requires { WellFormed plan.now s.rows s.cols s.lift × (lane < lanes s side) × (k < blocks s side) }
    ensures { result ≡ block_on plan.now s side lane k }
{
    match side {
        Side::Bits => block::block_at(plan, s.cols, s.lift, k, lane),
        Side::Checks => block::block_at(plan, s.cols, s.lift, lane, k),
    }
}

// How many blocks of a lane are filled.
#[tactic(auto, using(graph::proofs::Count::count_last, crate::proofs::Weights::weight_count, crate::proofs::Weights::count_few, crate::proofs::Weights::blocks_few), unfolding(graph::specs::Count::count, graph::specs::Count::range))]
pub fn weight(plan: &[i16], s: Shape, side: Side, lane: usize) -> usize
    requires { WellFormed plan.now s.rows s.cols s.lift × (lane < lanes s side) }
    ensures { result ≡ weight_of plan.now s side lane }
{
    let mut n = 0;
    for k in 0..blocks(s, side) {
        if block_on(plan, s, side, lane, k).is_filled() {
            n += 1;
        }
    }
    n
}

// Fills the list of a side.
#[tactic(auto, using(crate::proofs::Weights::weight_few, crate::proofs::Weights::weights_by))]
fn fill_side(plan: &[i16], s: Shape, side: Side, list: &mut [u16])
    requires { WellFormed plan.now s.rows s.cols s.lift × (length list.old ≡ lanes s side) }
    ensures { list.new ≡ weights_of plan.now s side }
{
    for lane in 0..list.len() {
        list[lane] = weight(plan, s, side, lane) as u16;
    }
}

// Fills both lists.
pub fn fill(plan: &[i16], s: Shape, byrow: &mut [u16], bycol: &mut [u16])
    requires { WellFormed plan.now s.rows s.cols s.lift × (length byrow.old ≡ s.rows) × (length bycol.old ≡ s.cols) }
    ensures rows { byrow.new ≡ weights_of plan.now s Checks }
    ensures cols { bycol.new ≡ weights_of plan.now s Bits }
{
    fill_side(plan, s, Side::Checks, byrow);
    fill_side(plan, s, Side::Bits, bycol);
}

// A weight of a list.
pub fn at(list: &[u16], lane: usize) -> usize
    requires { lane < length list.now }
    ensures { result ≡ get_or list.now lane 0 }
{
    list[lane] as usize
}

// The weight of a lane, from the lists.
pub fn listed(byrow: &[u16], bycol: &[u16], side: Side, lane: usize) -> usize
    requires { lane < length (list_of side byrow.now bycol.now) }
    ensures { result ≡ get_or (list_of side byrow.now bycol.now) lane 0 }
{
    match side {
        Side::Bits => at(bycol, lane),
        Side::Checks => at(byrow, lane),
    }
}

// Whether a list is that of a side: as long, and each count right.
fn is_side(plan: &[i16], s: Shape, side: Side, list: &[u16]) -> bool
    requires { WellFormed plan.now s.rows s.cols s.lift }
    ensures { result ≡ same list.now (weights_of plan.now s side) }
{
    list.len() == lanes(s, side)
        && (0..list.len()).all(|lane| at(list, lane) == weight(plan, s, side, lane))
}

// Whether both lists are those of the plan.
#[tactic(auto, unfolding(crate::specs::Weights::right))]
pub fn are_right(plan: &[i16], s: Shape, byrow: &[u16], bycol: &[u16]) -> bool
    requires { WellFormed plan.now s.rows s.cols s.lift }
    ensures { result ≡ right plan.now s byrow.now bycol.now }
{
    is_side(plan, s, Side::Checks, byrow) && is_side(plan, s, Side::Bits, bycol)
}
