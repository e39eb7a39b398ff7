ghost use Rattle.std.specs.Prelude.{◌≡◌, ◌+◌, ◌*◌, ◌<◌, ◌≤◌, length};
ghost use Rattle.writing.specs.Wrote.{Wrote};
ghost use Rattle.grid.specs.Inner.{Within, keeps};
ghost use Rattle.table.specs.Write.{Ready, cell, cells, line, lines, plan_of};

use grid::{Column, Part, Row};

// The numbers J, L and P of a plan.
#[derive(Clone, Copy, Debug, PartialEq, Eq)]
pub struct Size {
    pub order: usize,
    pub weight: usize,
    pub lift: usize,
}

// Writes the entry of row w in column q, if the mask has the column, and answers the next place.
#[tactic(auto, using(crate::proofs::Rows::cell_is, crate::proofs::Rows::cell_written, crate::proofs::Rows::cell_skipped))]
fn put_cell(
    table: &[i16],
    mask: &[u8],
    size: Size,
    w: Row,
    q: Column,
    plan: &mut [i16],
    at: usize,
) -> usize
    requires { Ready size table.now mask.now × Within size.order q × (at + length (cell size table.now mask.now w q) ≤ length plan.old) }
    ensures { Wrote plan.old at (cell size table.now mask.now w q) result plan.new }
{
    if mask[q.j * size.order + q.r] == 1 {
        plan[at] = grid::entry(table, size.order, size.lift, w, q);
        at + 1
    } else {
        at
    }
}

// Writes the entries of row w.
#[tactic(auto, unfolding(crate::specs::Write::cells))]
fn put_row(table: &[i16], mask: &[u8], size: Size, w: Row, plan: &mut [i16], at: usize) -> usize
    requires { Ready size table.now mask.now × (at + length (cells size table.now mask.now w) ≤ length plan.old) }
    ensures { Wrote plan.old at (cells size table.now mask.now w) result plan.new }
{
    let mut to = at;
    for n in 0..size.weight * size.order * size.order {
        let q = grid::column_of(size.order, n);
        to = put_cell(table, mask, size, w, q, plan, to);
    }
    to
}

// Writes the entries of row n of a part, if the part has it.
#[tactic(auto, using(writing::proofs::Wrote::wrote_none), unfolding(crate::specs::Write::line))]
fn put_line(
    table: &[i16],
    mask: &[u8],
    size: Size,
    part: Part,
    n: usize,
    plan: &mut [i16],
    at: usize,
) -> usize
    requires { Ready size table.now mask.now × (n < size.order * size.order) × (at + length (line size table.now mask.now part n) ≤ length plan.old) }
    ensures { Wrote plan.old at (line size table.now mask.now part n) result plan.new }
{
    let w = Row {
        part,
        one: n / size.order,
        two: n % size.order,
    };
    if grid::keeps(part, mask[w.one * size.order + w.two]) {
        put_row(table, mask, size, w, plan, at)
    } else {
        at
    }
}

// Writes the entries of the first `count` rows of a part.
#[tactic(auto, unfolding(crate::specs::Write::lines))]
fn put_part(
    table: &[i16],
    mask: &[u8],
    size: Size,
    part: Part,
    count: usize,
    plan: &mut [i16],
    at: usize,
) -> usize
    requires { Ready size table.now mask.now × (count ≤ size.order * size.order) × (at + length (lines size table.now mask.now part count) ≤ length plan.old) }
    ensures { Wrote plan.old at (lines size table.now mask.now part count) result plan.new }
{
    let mut to = at;
    for n in 0..count {
        to = put_line(table, mask, size, part, n, plan, to);
    }
    to
}

// Writes the plan of a table and a mask.
pub fn fill(table: &[i16], mask: &[u8], size: Size, plan: &mut [i16])
    requires { Ready size table.now mask.now × (length plan.old ≡ length (plan_of size table.now mask.now)) }
    ensures { plan.new ≡ plan_of size table.now mask.now }
{
    let order = size.order;
    let count = size.weight * order;
    let x = put_part(table, mask, size, Part::AJ, count, plan, 0);
    let y = put_part(table, mask, size, Part::AR, count, plan, x);
    put_part(table, mask, size, Part::JR, order * order, plan, y);
}
