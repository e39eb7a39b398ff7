// Two index lists over a plan, kept on the stack: the next filled block of a column and of a row. They make work faster.
#![tactic(auto)]

ghost use Rattle.std.specs.Prelude.{◌≡◌, ◌+◌, ◌*◌, ◌<◌, ◌≤◌, length, get_or};
ghost use Rattle.exponent.specs.Limits.{WellFormed};
ghost use Rattle.index.specs.Index.{filled_at, named, DownNext, AlongNext, IndexedFrom, Room, AtRow, DownIndex, AlongIndex, under};

pub mod rows; // rows.rt

use exponent::{Shape, block};

// The places that an index has: 192 rows of 512 columns.
pub const PLACES: usize = 98304;

// The next filled row of a place's column after row i, or the number of rows.
fn next_under(down: &[u16], shape: Shape, i: usize, place: usize) -> usize
    requires { (i < 192) × (place < 98304) × (shape.cols ≤ 512) × (i + 1 < shape.rows → place + shape.cols < length down.now) }
    ensures { result ≡ under down.now shape i place }
{
    if i + 1 < shape.rows {
        down[place + shape.cols] as usize
    } else {
        shape.rows
    }
}

// Fills row i of the index along the rows, from its last column to its first; the rows after it are filled.
fn along_row(plan: &[i16], shape: Shape, i: usize, along: &mut [u16])
    requires { AtRow shape (AlongNext (filled_at plan.now shape) shape) along.old i × (length plan.now ≡ shape.rows * shape.cols) }
    ensures { IndexedFrom (AlongNext (filled_at plan.now shape) shape) shape along.new (i * shape.cols) }
{
    let first = i * shape.cols;
    let mut right = shape.cols;
    for j in (0..shape.cols).rev() {
        let place = first + j;
        if block::entry_at(plan, shape.lift, place).is_filled() {
            right = j;
        }
        along[place] = right as u16;
    }
}

// Fills the index along the rows, from the last row to the first.
#[tactic(auto, using(crate::proofs::Backward::rows_start, crate::proofs::Backward::rows_end, crate::proofs::Skips::along_index))]
pub fn build_along(plan: &[i16], shape: Shape, along: &mut [u16])
    requires { WellFormed plan.now shape.rows shape.cols shape.lift × (shape.rows * shape.cols ≤ length along.old) }
    ensures { AlongIndex plan.now shape along.new }
{
    for i in (0..shape.rows).rev() {
        along_row(plan, shape, i, along);
    }
}

// Fills row i of the index down the columns; the rows after it are filled. The index along the rows tells the filled blocks.
#[tactic(auto, using(crate::proofs::Backward::under_next))]
fn down_row(shape: Shape, i: usize, along: &[u16], down: &mut [u16])
    requires { AtRow shape (DownNext (named along.now shape) shape) down.old i × (shape.rows * shape.cols ≤ length along.now) }
    ensures { IndexedFrom (DownNext (named along.now shape) shape) shape down.new (i * shape.cols) }
{
    let first = i * shape.cols;
    for j in (0..shape.cols).rev() {
        let place = first + j;
        // Looked up at every place, so that no branch depends on the plan: the loop is then twice as fast.
        let lower = next_under(down, shape, i, place);
        let row = if along[place] == j as u16 { i } else { lower };
        down[place] = row as u16;
    }
}

// Fills the index down the columns, from the last row to the first.
#[tactic(auto, using(crate::proofs::Backward::rows_start))]
fn build_down(shape: Shape, along: &[u16], down: &mut [u16])
    requires { Room shape down.old × (shape.rows * shape.cols ≤ length along.now) }
    ensures { IndexedFrom (DownNext (named along.now shape) shape) shape down.new 0 }
{
    for i in (0..shape.rows).rev() {
        down_row(shape, i, along, down);
    }
}

// Fills both indexes; the plan is read once.
pub fn build(plan: &[i16], shape: Shape, down: &mut [u16], along: &mut [u16])
    requires { WellFormed plan.now shape.rows shape.cols shape.lift × (shape.rows * shape.cols ≤ length down.old) × (shape.rows * shape.cols ≤ length along.old) }
    ensures { DownIndex plan.now shape down.new × AlongIndex plan.now shape along.new }
{
    build_along(plan, shape, along);
    build_down(shape, along, down);
}

// What an index says at (i, j).
pub fn next(index: &[u16], cols: usize, i: usize, j: usize) -> usize
    requires { i * cols + j < length index.now }
    ensures { result ≡ get_or index.now (i * cols + j) 0 }
{
    index[i * cols + j] as usize
}
