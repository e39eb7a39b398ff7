// One block changed (document 02, slip 7).
use crate::plan::Weighed;
use crate::say::{judged, refused};
use crate::steiner_plans::voltages;
use crate::text::{alist_of, same_text};
use crate::weights_of::both;
use std::io;
use std::io::Stdout;
use weights::change;

// A change: the block's row and column, and its new entry.
type Change = (usize, usize, i16);

// Changes one entry, and writes the answer and the weights.
fn step<const N: usize, const R: usize, const C: usize>(
    out: Stdout,
    it: &mut Weighed<N, R, C>,
    lift: usize,
    (row, col, entry): Change,
) -> io::Result<()> {
    print!(out; "row {row}, column {col}: ")?;
    match change::change(
        &mut it.entries,
        R,
        C,
        lift,
        row,
        col,
        entry,
        &mut it.rows,
        &mut it.cols,
    ) {
        Ok(()) => print!(out; "changed")?,
        Err(r) => refused(out, r)?,
    }
    print!(out; ", ")?;
    both(out, it.weights())
}

// A block emptied, another one, one filled with a voltage above P; then an entry that is no block, and a row and a column outside.
const CHANGES: [Change; 6] = [
    (1, 1, -1),
    (0, 0, -1),
    (1, 1, 32767),
    (1, 1, -2),
    (2, 0, 0),
    (0, 2, 0),
];

// The plan 0 0 / 0 1 at P = 2, changed; then a wrong weight, which is set right again.
pub fn small(out: Stdout) -> io::Result<()> {
    let mut it = Weighed {
        entries: [0, 0, 0, 1],
        rows: [2; 2],
        cols: [2; 2],
    };
    println!(out; "0 0 / 0 1, P = 2:")?;
    for change in CHANGES {
        step(out, &mut it, 2, change)?;
    }
    it.cols[1] = 1;
    step(out, &mut it, 2, (1, 1, 0))?;
    it.cols[1] = 2;
    alist_of(out, it.plan(2), it.weights())
}

// Order 7's Steiner plan at P = 40.
fn order_seven() -> Weighed<49, 7, 7> {
    let mut it = Weighed::<49, 7, 7>::zeros();
    let _ = steiner::build(
        7,
        40,
        &voltages::<21>(),
        &mut it.entries,
        &mut it.rows,
        &mut it.cols,
    );
    it
}

// Order 7's plan with one block more: with 77, whose remainder by 40 is 37, it closes a cycle of 4 edges, with 38 it does not. Emptied
// again, it is the plan that was built.
pub fn judged_again(out: Stdout) -> io::Result<()> {
    let built = order_seven();
    let mut it = built;
    println!(out; "steiner 7, P = 40, with one block more:")?;
    for entry in [77, 38, -1] {
        step(out, &mut it, 40, (2, 0, entry))?;
        judged(out, it.plan(40), 6)?;
        println!(out)?;
    }
    same_text(out, it.plan(40), built.plan(40), it.weights())?;
    println!(out)
}
