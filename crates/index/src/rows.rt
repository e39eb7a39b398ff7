ghost use Rattle.std.specs.Prelude.{◌≡◌, cond, ltb, ◌<◌};
ghost use Rattle.index.specs.Index.{filled_at, AlongIndex, DownIndex, NextOf};

use crate::PLACES;
use exponent::plan::Plan;

// A plan with the index along its rows.
#[derive(Clone, Copy)]
pub struct Rows<'a> {
    pub plan: Plan<'a>,
    along: &'a [u16],
    ghost onward: { AlongIndex plan.entries.now plan.shape along.now },
}

// A plan with both indexes.
#[derive(Clone, Copy)]
pub struct Graph<'a> {
    pub rows: Rows<'a>,
    down: &'a [u16],
    ghost downward: { DownIndex rows.plan.entries.now rows.plan.shape down.now },
}

// The number, where it is below a limit.
fn below(n: usize, limit: usize) -> Option<usize>
    ensures { result ≡ cond (ltb n limit) (Some n) None }
{
    if n < limit { Some(n) } else { None }
}

impl<'a> Rows<'a> {
    // Fills the index along the rows of a plan.
    pub fn new(plan: Plan<'a>, along: &'a mut [u16; PLACES]) -> Rows<'a>
        ensures { result.plan ≡ plan.entry }
    {
        crate::build_along(plan.entries, plan.shape, along);
        Rows { plan, along }
    }

    // The next filled column of row i from column j on.
    pub fn next(&self, i: usize, j: usize) -> Option<usize>
        requires { i < self.now.plan.shape.rows }
        ensures { NextOf (filled_at self.now.plan.entries.now self.now.plan.shape i) j self.now.plan.shape.cols result }
    {
        let cols = self.plan.shape.cols;
        if j < cols {
            below(self.along[i * cols + j] as usize, cols)
        } else {
            None
        }
    }
}

impl<'a> Graph<'a> {
    // Fills both indexes of a plan, which is read once.
    pub fn new(
        plan: Plan<'a>,
        down: &'a mut [u16; PLACES],
        along: &'a mut [u16; PLACES],
    ) -> Graph<'a>
        ensures { result.rows.plan ≡ plan.entry }
    {
        crate::build(plan.entries, plan.shape, down, along);
        Graph {
            rows: Rows { plan, along },
            down,
        }
    }

    // The next filled row of column j from row i on.
    pub fn next_row(&self, i: usize, j: usize) -> Option<usize>
        requires { j < self.now.rows.plan.shape.cols }
        ensures { NextOf (λ k. filled_at self.now.rows.plan.entries.now self.now.rows.plan.shape k j) i self.now.rows.plan.shape.rows result }
    {
        let shape = self.rows.plan.shape;
        if i < shape.rows {
            below(self.down[i * shape.cols + j] as usize, shape.rows)
        } else {
            None
        }
    }
}
