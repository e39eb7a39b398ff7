// The table plans of document 01's bench cases and of source 004's examples, each judged at 12 and at the largest target, which
// shows that their girth is 12.
ghost use Rattle.std.specs.Prelude.{◌≤◌};

use crate::plan::{Case, Weighed};
use crate::say::{built, refused, verdicts};
use crate::text::same_text;
use crate::weights_of::bounds;
use std::io;
use std::io::Stdout;

// The supplied tables.
#[derive(Clone, Copy)]
enum Supplied {
    Array,
    Cyclic,
}

impl Supplied {
    fn label(self) -> &'static str {
        match self {
            Supplied::Array => "array",
            Supplied::Cyclic => "cyclic",
        }
    }

    // The table of an order, of so many cells.
    fn table<const CELLS: usize>(self, order: usize) -> [i16; CELLS] {
        let mut cells = [0i16; CELLS];
        let _ = match self {
            Supplied::Array => table::array(order, &mut cells),
            Supplied::Cyclic => table::cyclic(order, &mut cells),
        };
        cells
    }
}

// Builds the plan of a supplied table in places of these sizes, and judges it at 12 and at the largest target; its weights are all alike.
// Stays: three arrays, not a `Weighed`; tried, and that a `Weighed` of any sizes fits in memory was not proved.
fn build<const CELLS: usize, const N: usize, const R: usize, const C: usize>(
    out: Stdout,
    supplied: Supplied,
    order: usize,
    lift: usize,
    mask: &[u8; CELLS],
) -> io::Result<()>
    requires { (CELLS ≤ 65536) × (N ≤ 65536) × (R ≤ 65536) × (C ≤ 65536) }
{
    let cells = supplied.table::<CELLS>(order);
    let mut entries = [0i16; N];
    let mut by_row = [0u16; R];
    let mut by_col = [0u16; C];
    print!(out; "{} {order}, P = {lift}: ", supplied.label())?;
    match table::build(
        order,
        lift,
        &cells,
        mask,
        &mut entries,
        &mut by_row,
        &mut by_col,
    ) {
        Err(r) => refused(out, r)?,
        Ok(s) => {
            built(out, Case::new(&entries, s.rows, s.cols, lift), 12)?;
            bounds(out, ", row weights ", &by_row)?;
            bounds(out, ", column weights ", &by_col)?;
        }
    }
    println!(out)
}

// Order 6, and 004's example 3.
pub fn order_six(out: Stdout) -> io::Result<()> {
    for lift in [18, 19, 25] {
        build::<36, 23328, 108, 216>(out, Supplied::Cyclic, 6, lift, &[1; 36])?;
    }
    Ok(())
}

// Order 7, and 004's example 1.
pub fn order_seven(out: Stdout) -> io::Result<()> {
    for lift in [7, 10, 11] {
        build::<49, 50421, 147, 343>(out, Supplied::Array, 7, lift, &[1; 49])?;
    }
    Ok(())
}

// The mask with 0 on the diagonal.
fn diagonal_mask() -> [u8; 49] {
    let mut mask = [1u8; 49];
    for k in 0..7 {
        mask[8 * k] = 0;
    }
    mask
}

// 004's example 2.
pub fn diagonal(out: Stdout) -> io::Result<()> {
    build::<49, 31752, 126, 252>(out, Supplied::Cyclic, 7, 7, &diagonal_mask())
}

// The plan of that example, built at a lift.
fn diagonal_plan(lift: usize) -> Weighed<31752, 126, 252> {
    let cells = Supplied::Cyclic.table::<49>(7);
    let mut it = Weighed::<31752, 126, 252>::zeros();
    let _ = table::build(
        7,
        lift,
        &cells,
        &diagonal_mask(),
        &mut it.entries,
        &mut it.rows,
        &mut it.cols,
    );
    it
}

// The same with the table's voltages as they are printed, up to 15: a plan that is built at 100 holds them so. It is judged at
// P = 7, and its text compared with the plan of their remainders.
pub fn printed(out: Stdout) -> io::Result<()> {
    let as_printed = diagonal_plan(100);
    let reduced = diagonal_plan(7);
    print!(out; "cyclic 7 as printed, P = 7: ")?;
    verdicts(out, as_printed.plan(7), 12)?;
    print!(out; ", ")?;
    same_text(out, as_printed.plan(7), reduced.plan(7), reduced.weights())?;
    println!(out)
}
