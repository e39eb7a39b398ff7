// Steiner triple plans of each order (document 02, slip 6): sizes, verdicts, entries and weights, and each refusal of the builder.
ghost use Rattle.std.specs.Prelude.{◌≤◌};

use crate::plan::{Case, Weights};
use crate::say::{built, refused};
use crate::weights_of::both;
use exponent::block;
use exponent::block::Block;
use std::io;
use std::io::Stdout;

// A voltage for each of N places, below 1,009.
pub fn voltages<const N: usize>() -> [i16; N] {
    let mut voltages = [0i16; N];
    for (k, voltage) in voltages.iter_mut().enumerate() {
        *voltage = (k % 1000 * 37 % 1009) as i16;
    }
    voltages
}

// A blank and the block of an entry.
pub fn show_entry(out: Stdout, entry: i16, lift: usize) -> io::Result<()> {
    match block::entry(entry, lift) {
        Block::Shift(e) => print!(out; " {e}"),
        Block::Zero => print!(out; " ."),
        Block::Invalid => print!(out; " ?"),
    }
}

// The entries, with a line for each row.
fn show(out: Stdout, plan: Case<'_>) -> io::Result<()> {
    for row in plan.entries.chunks(plan.shape.cols.max(1)) {
        for entry in row {
            show_entry(out, *entry, plan.shape.lift)?;
        }
        println!(out)?;
    }
    Ok(())
}

// Builds a plan in places of these sizes and says what came of it.
// Stays: three arrays, not a `Weighed`; tried, and that a `Weighed` of any sizes fits in memory was not proved.
fn build<const N: usize, const R: usize, const C: usize>(
    out: Stdout,
    order: usize,
    lift: usize,
    voltages: &[i16],
) -> io::Result<()>
    requires { (N ≤ 65536) × (R ≤ 65536) × (C ≤ 65536) }
{
    let mut entries = [0i16; N];
    let mut by_row = [0u16; R];
    let mut by_col = [0u16; C];
    print!(out; "steiner {order}, P = {lift}: ")?;
    match steiner::build(
        order,
        lift,
        voltages,
        &mut entries,
        &mut by_row,
        &mut by_col,
    ) {
        Err(r) => refused(out, r)?,
        Ok(s) => {
            let plan = Case::new(&entries, s.rows, s.cols, lift);
            built(out, plan, 6)?;
            println!(out)?;
            show(out, plan)?;
            both(out, Weights::new(&by_row, &by_col))?;
        }
    }
    println!(out)
}

pub fn orders(out: Stdout) -> io::Result<()> {
    build::<49, 7, 7>(out, 7, 1, &voltages::<21>())?;
    build::<49, 7, 7>(out, 7, 40, &voltages::<21>())?;
    build::<108, 9, 12>(out, 9, 4096, &voltages::<36>())?;
    build::<338, 13, 26>(out, 13, 2520, &voltages::<78>())?;
    build::<525, 15, 35>(out, 15, 1872, &voltages::<105>())?;
    build::<1083, 19, 57>(out, 19, 1149, &voltages::<171>())?;
    build::<1083, 19, 57>(out, 19, 1150, &voltages::<171>())
}

// The lift, the order and the lengths, those of the weights last.
pub fn turned_away(out: Stdout) -> io::Result<()> {
    let zeros = [0i16; 21];
    let few = [0i16; 20];
    build::<49, 7, 7>(out, 7, 0, &zeros)?;
    build::<49, 7, 7>(out, 8, 4097, &zeros)?;
    build::<49, 7, 7>(out, 8, 4096, &zeros)?;
    build::<49, 7, 7>(out, 9, 40, &zeros)?;
    build::<49, 7, 7>(out, 7, 40, &few)?;
    build::<48, 7, 7>(out, 7, 40, &zeros)?;
    build::<49, 6, 7>(out, 7, 40, &zeros)?;
    build::<49, 7, 6>(out, 7, 40, &zeros)?;
    build::<49, 7, 6>(out, 8, 40, &zeros)?;
    build::<49, 7, 6>(out, 7, 40, &few)
}

// A negative voltage, whatever the order and the lengths, unless the plan would have too many bits.
pub fn negative(out: Stdout) -> io::Result<()> {
    let mut voltages = [0i16; 21];
    voltages[20] = -1;
    build::<49, 7, 7>(out, 19, 1149, &voltages)?;
    build::<49, 7, 7>(out, 15, 1873, &voltages)?;
    voltages[5] = -7;
    build::<49, 7, 7>(out, 8, 40, &voltages)
}
