// The exponent matrix (document 01: plan) of a quasi-cyclic code: its limits, its blocks, and a walk's position in its graph.
#![tactic(auto)]

ghost use Rattle.std.specs.Prelude.{◌≡◌};
ghost use Rattle.refusal.specs.Answer.{ok_unless};
ghost use Rattle.refusal.specs.Lowest.{lowest};
ghost use Rattle.exponent.specs.Limits.{plan_rules};

pub mod block; // block.rt: what an entry of the matrix says; the only place that reads an entry of a plan
pub mod limits; // limits.rt: the tests behind refusals 1 to 6
pub mod plan; // plan.rt: a plan within the limits and its sizes, as one value
pub mod position; // position.rt: a walk's position, and its two steps

use refusal::Refusal;

// The sizes of a plan.
#[derive(Clone, Copy, Debug, PartialEq, Eq)]
pub struct Shape {
    pub rows: usize,
    pub cols: usize,
    pub lift: usize,
}

// Judges a plan: valid, or the lowest of refusals 1 to 6 that applies.
#[tactic(auto, using(refusal::proofs::Place::position_some, refusal::proofs::Place::position_none), unfolding(crate::specs::Limits::plan_rules, refusal::specs::Lowest::lowest))]
pub fn validate(plan: &[i16], rows: usize, cols: usize, lift: usize) -> Result<(), Refusal>
    ensures { result ≡ ok_unless (lowest (plan_rules plan.now rows cols lift)) }
{
    if limits::outside(1, 192, rows) {
        return Err(Refusal::Rows);
    }
    if limits::outside(1, 512, cols) {
        return Err(Refusal::Cols);
    }
    if limits::outside(1, 4096, lift) {
        return Err(Refusal::Lift);
    }
    if 65536 < cols * lift {
        return Err(Refusal::Bits);
    }
    if plan.len() != rows * cols {
        return Err(Refusal::PlanLength);
    }
    match limits::first_invalid(plan, lift) {
        Some(place) => Err(Refusal::Entry(place)),
        None => Ok(()),
    }
}
