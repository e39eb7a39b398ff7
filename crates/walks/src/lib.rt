// The search for short cycles in the Tanner graph of a plan: two ways of n edges that meet (specs/Meeting.antt is its model).
#![tactic(auto)]

ghost use Rattle.std.specs.Prelude.{◌≡◌, ◌+◌, ◌*◌, ◌<◌, ◌≤◌};
ghost use Rattle.walks.specs.Steps.{AtCheck, AtBit, blocks, to_column, to_row};

use exponent::block::Block;
use exponent::plan::Plan;
use exponent::position::Position;

pub mod trail; // trail.rt: the checks and bits of a way, and two ways joined
mod search; // search.rt: all ways on from a bit or a check, by two functions that call each other
pub mod meet; // meet.rt: two ways of n edges from one root that meet

// A stamp for each bit.
pub const STAMPS: usize = 65536;

// The lowest row and the lowest column that a search enters.
#[derive(Clone, Copy, Debug, PartialEq, Eq)]
pub struct Corner {
    pub row: usize,
    pub col: usize,
}

// The number of a check or a bit.
pub fn number(index: usize, lift: usize, voltage: usize) -> usize
    requires { (index < 512) × (lift ≤ 4096) × (voltage < lift) }
    ensures { result ≡ index * lift + voltage }
{
    index * lift + voltage
}

// From a check to its bit in another column, where the block between them is filled.
#[tactic(auto, using(exponent::proofs::Tanner::shift_low))]
pub fn to_column(plan: &Plan, p: Position, col: usize) -> Option<Position>
    requires { AtCheck plan.now.entries.now plan.now.shape p × (col < plan.now.shape.cols) }
    ensures { result ≡ to_column (blocks plan.now) p col }
{
    if col == p.col {
        return None;
    }
    match plan.block_at(p.row, col) {
        Block::Shift(e) => Some(p.forward(col, e, plan.shape.lift)),
        Block::Zero | Block::Invalid => None,
    }
}

// From a bit to its check in another row, where the block between them is filled.
#[tactic(auto, using(exponent::proofs::Tanner::shift_low))]
pub fn to_row(plan: &Plan, p: Position, row: usize) -> Option<Position>
    requires { AtBit plan.now.entries.now plan.now.shape p × (row < plan.now.shape.rows) }
    ensures { result ≡ to_row (blocks plan.now) p row }
{
    if row == p.row {
        return None;
    }
    match plan.block_at(row, p.col) {
        Block::Shift(e) => Some(p.back(row, e, plan.shape.lift)),
        Block::Zero | Block::Invalid => None,
    }
}
