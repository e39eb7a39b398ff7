// Example 1 of source 002: the voltages of (5), tailbitten to length 2, and the parity-check matrix (6) as alist.
// Its free girth, over the integers, is 4 too; a lift of 4,096 stands for them: a short cycle's voltages cannot add up to it.
// At P = 1 its voltage 1 is printed at P.
use crate::plan::{Case, Weights};
use crate::say::judged;
use crate::text::alist_of;
use std::io;
use std::io::Stdout;

pub const VOLTAGES: [i16; 12] = [0, 0, 0, 0, 0, 0, 1, 1, 0, 1, 0, 1];

// The example at a P.
pub fn plan_at(lift: usize) -> Case<'static> {
    Case::new(&VOLTAGES, 3, 4, lift)
}

fn example(out: Stdout, lift: usize) -> io::Result<()> {
    print!(out; "002 example 1, P = {lift}: ")?;
    judged(out, plan_at(lift), 6)?;
    println!(out)
}

fn text(out: Stdout, lift: usize) -> io::Result<()> {
    alist_of(out, plan_at(lift), Weights::new(&[4; 3], &[3; 4]))
}

pub fn example_one(out: Stdout) -> io::Result<()> {
    example(out, 2)?;
    text(out, 2)?;
    example(out, 4096)?;
    example(out, 1)?;
    text(out, 1)
}
