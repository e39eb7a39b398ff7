ghost use Rattle.std.specs.Prelude.{◌≡◌, ◌<◌, IfOk};
ghost use Rattle.std.specs.Result.{result_err};
ghost use Rattle.refusal.specs.Lowest.{lowest};
ghost use Rattle.exponent.specs.Limits.{WellFormed, plan_rules};
ghost use Rattle.exponent.specs.Plan.{block_at, shape_of};

use crate::block::Block;
use crate::{Shape, block};
use refusal::Refusal;

// A plan that none of refusals 1 to 6 falls on: its list of entries and its sizes.
#[derive(Clone, Copy)]
pub struct Plan<'a> {
    pub entries: &'a [i16],
    pub shape: Shape,
    ghost well_formed: { WellFormed entries.now shape.rows shape.cols shape.lift },
}

impl<'a> Plan<'a> {
    // The plan, or the lowest of refusals 1 to 6 that applies.
    #[tactic(auto, using(crate::proofs::Rules::formed))]
    pub fn new(
        entries: &'a [i16],
        rows: usize,
        cols: usize,
        lift: usize,
    ) -> Result<Plan<'a>, Refusal>
        ensures refusal { result_err result ≡ lowest (plan_rules entries.entry.now rows cols lift) }
        ensures plan { IfOk result (λ p. (p.entries ≡ entries.entry) × (p.shape ≡ shape_of rows cols lift)) }
    {
        crate::validate(entries, rows, cols, lift)?;
        Ok(Plan {
            entries,
            shape: Shape { rows, cols, lift },
        })
    }

    // The block in row i and column j.
    pub fn block_at(&self, i: usize, j: usize) -> Block
        requires { (i < self.now.shape.rows) × (j < self.now.shape.cols) }
        ensures { result ≡ block_at self.now.entries.now self.now.shape.cols self.now.shape.lift i j }
    {
        block::block_at(self.entries, self.shape.cols, self.shape.lift, i, j)
    }
}
