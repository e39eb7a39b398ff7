ghost use Rattle.std.specs.Prelude.{◌≡◌, ◌<◌, length, set};
ghost use Rattle.refusal.specs.Answer.{ok_unless};
ghost use Rattle.refusal.specs.Lowest.{lowest};
ghost use Rattle.exponent.specs.Limits.{WellFormed};
ghost use Rattle.weights.specs.declared.Side.TheVariants.{Bits, Checks};
ghost use Rattle.weights.specs.Weights.{lanes, weight_of, weights_of, held};
ghost use Rattle.weights.specs.Change.{own_rules, change_rules, stored, Accepted, call, refusal_of, after};

use crate::Side;
use exponent::{Shape, block};
use refusal::Refusal;

// A block's row and column.
#[derive(Clone, Copy, Debug, PartialEq, Eq)]
pub struct At {
    pub row: usize,
    pub col: usize,
}

// Refusals 6 of the new entry, 24 and 25.
#[tactic(auto, using(crate::proofs::Rules::entry_refused))]
fn judge_block(
    plan: &[i16],
    s: Shape,
    at: At,
    entry: i16,
    byrow: &[u16],
    bycol: &[u16],
) -> Result<(), Refusal>
    requires { WellFormed plan.now s.rows s.cols s.lift }
    ensures { result ≡ ok_unless (lowest (own_rules plan.now s at entry byrow.now bycol.now)) }
{
    if block::entry(entry, s.lift).is_invalid() {
        return Err(Refusal::Entry(s.rows * s.cols));
    }
    if s.rows <= at.row || s.cols <= at.col {
        return Err(Refusal::BlockPlace);
    }
    if !crate::are_right(plan, s, byrow, bycol) {
        return Err(Refusal::Weights);
    }
    Ok(())
}

// All refusals of the call, the lowest first.
#[tactic(auto, using(exponent::proofs::Rules::valid_none, exponent::proofs::Rules::accepted))]
fn judge(
    plan: &[i16],
    s: Shape,
    at: At,
    entry: i16,
    byrow: &[u16],
    bycol: &[u16],
) -> Result<(), Refusal>
    ensures { result ≡ ok_unless (lowest (change_rules plan.now s at entry byrow.now bycol.now)) }
{
    exponent::validate(plan, s.rows, s.cols, s.lift)?;
    judge_block(plan, s, at, entry, byrow, bycol)
}

// Counts one lane anew.
#[tactic(auto, using(crate::proofs::Weights::weight_few))]
fn recount(plan: &[i16], s: Shape, side: Side, lane: usize, list: &mut [u16])
    requires { WellFormed plan.now s.rows s.cols s.lift × (lane < lanes s side) × (length list.old ≡ lanes s side) }
    ensures { list.new ≡ set list.old lane (weight_of plan.now s side lane) }
{
    list[lane] = crate::weight(plan, s, side, lane) as u16;
}

// Stores the new entry, and counts its row and its column anew.
#[tactic(auto, using(crate::proofs::Weights::length_weights, crate::proofs::Stored::stored_well, crate::proofs::Stored::weights_stored), unfolding(crate::specs::Change::stored))]
fn store(plan: &mut [i16], s: Shape, at: At, entry: i16, byrow: &mut [u16], bycol: &mut [u16])
    requires { Accepted plan.old s at entry byrow.old bycol.old }
    ensures plan { plan.new ≡ stored plan.old s at entry }
    ensures rows { byrow.new ≡ weights_of (stored plan.old s at entry) s Checks }
    ensures cols { bycol.new ≡ weights_of (stored plan.old s at entry) s Bits }
{
    plan[at.row * s.cols + at.col] = entry;
    recount(plan, s, Side::Checks, at.row, byrow);
    recount(plan, s, Side::Bits, at.col, bycol);
}

// Changes the entry of one block, and keeps both lists of weights true; or turns the caller away and leaves all as it is.
#[tactic(auto, using(std::proofs::lemmas::Result::err_from_is_err_and, exponent::proofs::Rules::valid_none, exponent::proofs::Rules::refused_some, crate::proofs::Rules::accepted, crate::proofs::Changes::taken, crate::proofs::Changes::stays), unfolding(crate::specs::Change::refusal_of, crate::specs::Change::after))]
pub fn change(
    plan: &mut [i16],
    rows: usize,
    cols: usize,
    lift: usize,
    row: usize,
    col: usize,
    entry: i16,
    row_weights: &mut [u16],
    col_weights: &mut [u16],
) -> Result<(), Refusal>
    ensures answer { result ≡ ok_unless (refusal_of (call rows cols lift row col entry) (held plan.old row_weights.old col_weights.old)) }
    ensures plan { plan.new ≡ (after (call rows cols lift row col entry) (held plan.old row_weights.old col_weights.old)).plan }
    ensures rows { row_weights.new ≡ (after (call rows cols lift row col entry) (held plan.old row_weights.old col_weights.old)).rows }
    ensures cols { col_weights.new ≡ (after (call rows cols lift row col entry) (held plan.old row_weights.old col_weights.old)).cols }
{
    let s = Shape { rows, cols, lift };
    let at = At { row, col };
    judge(plan, s, at, entry, row_weights, col_weights)?;
    store(plan, s, at, entry, row_weights, col_weights);
    Ok(())
}
