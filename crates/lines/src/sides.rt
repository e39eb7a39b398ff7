ghost use Rattle.std.specs.Prelude.{◌≡◌, ◌+◌, ◌-◌, ◌*◌, ◌<◌, ◌≤◌, length};
ghost use Rattle.exponent.specs.Limits.{WellFormed};
ghost use Rattle.weights.specs.Weights.{lanes, blocks};
ghost use Rattle.lines.specs.Sides.{next_block, node_count, turned, number_in, Small};

use exponent::block::Block;
use exponent::{Shape, position};
use weights::Side;

// How many bits, or checks, there are.
pub fn node_count(s: Shape, side: Side) -> usize
    requires { Small s }
    ensures { result ≡ node_count s side }
{
    weights::lanes(s, side) * s.lift
}

// The next filled block of a lane from k on, or how many blocks the lane has.
pub fn next_block(down: &[u16], along: &[u16], s: Shape, side: Side, lane: usize, k: usize) -> usize
    requires { (lane < lanes s side) × (k < blocks s side) × (s.rows * s.cols ≤ length down.now) × (s.rows * s.cols ≤ length along.now) }
    ensures { result ≡ next_block down.now along.now s side lane k }
{
    match side {
        Side::Bits => index::next(down, s.cols, k, lane),
        Side::Checks => index::next(along, s.cols, lane, k),
    }
}

// The check of a row of blocks that a block shifted by e joins to bit y of its column, or the bit of a column that it joins to check y.
fn turned(side: Side, lift: usize, y: usize, e: usize) -> usize
    requires { (y < lift) × (e < lift) × (lift ≤ 4096) }
    ensures { result ≡ turned side lift y e }
{
    match side {
        Side::Bits => position::wrap(y + (lift - e), lift),
        Side::Checks => position::wrap(y + e, lift),
    }
}

// The neighbour of node y of a lane in the lane's block k, counted from 1; 0 where the block joins none.
#[tactic(auto, using(crate::proofs::Lanes::number_past, crate::proofs::Lanes::number_filled, crate::proofs::Lanes::number_unfilled, crate::proofs::Lanes::shift_on))]
pub fn number_in(plan: &[i16], s: Shape, side: Side, lane: usize, y: usize, k: usize) -> usize
    requires { WellFormed plan.now s.rows s.cols s.lift × (lane < lanes s side) × (y < s.lift) }
    ensures { result ≡ number_in plan.now s side lane y k }
{
    if weights::blocks(s, side) <= k {
        return 0;
    }
    match weights::block_on(plan, s, side, lane, k) {
        Block::Shift(e) => k * s.lift + turned(side, s.lift, y, e) + 1,
        Block::Zero | Block::Invalid => 0,
    }
}
