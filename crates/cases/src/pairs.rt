// The girth test by sorted pairs (document 02, slip 8): in as many places as a plan's largest tree has nodes, and in one fewer.
ghost use Rattle.std.specs.Prelude.{◌<◌, length};

use crate::plan::Case;
use crate::say::refused;
use crate::source000::Code;
use crate::{source000, source001, source002};
use std::io;
use std::io::Stdout;

// The verdict, and the places it had.
fn judged(out: Stdout, plan: Case<'_>, target: usize, work: &mut [u64]) -> io::Result<()> {
    let s = plan.shape;
    let places = work.len();
    match treetest::test(plan.entries, s.rows, s.cols, s.lift, target, work) {
        Ok(true) => print!(out; "passes {target}")?,
        Ok(false) => print!(out; "does not pass {target}")?,
        Err(r) => refused(out, r)?,
    }
    print!(out; " in {places}")
}

// The verdict in all places of the work list, and in all but one.
fn twice(
    out: Stdout,
    label: &str,
    plan: Case<'_>,
    target: usize,
    work: &mut [u64],
) -> io::Result<()>
    requires { 0 < length work.old }
{
    print!(out; "by pairs, {label} = {}: ", plan.shape.lift)?;
    judged(out, plan, target, work)?;
    print!(out; " places, ")?;
    judged(out, plan, target, &mut work[1..])?;
    println!(out)
}

// Example 1 of source 002.
pub fn example_one(out: Stdout) -> io::Result<()> {
    let label = "002 example 1, P";
    twice(out, label, source002::plan_at(2), 6, &mut [0; 13])?;
    twice(out, label, source002::plan_at(4096), 10, &mut [0; 85])
}

// Labelings of source 001, each at its girth and at the next target.
pub fn labelings(out: Stdout) -> io::Result<()> {
    let label = "001 table II, M";
    let of_21 = source001::plan_at(&source001::II_M21, 21);
    let of_20 = source001::plan_at(&source001::II_M20, 20);
    twice(out, label, of_21, 8, &mut [0; 31])?;
    twice(out, label, of_21, 10, &mut [0; 85])?;
    twice(out, label, of_20, 10, &mut [0; 85])?;
    twice(out, label, of_20, 12, &mut [0; 193])
}

// On the plan of a code of source 000.
fn code(out: Stdout, label: &str, code: Code, target: usize, work: &mut [u64]) -> io::Result<()>
    requires { 0 < length work.old }
{
    twice(out, label, code.plan(&code.entries()), target, work)
}

// A matrix of source 000, Table III, at its girth and at the next target.
pub fn four_columns(out: Stdout) -> io::Result<()> {
    let label = "000 table III short, K = 4, M";
    code(out, label, source000::III_K4_M9, 8, &mut [0; 31])?;
    code(out, label, source000::III_K4_M9, 10, &mut [0; 85])
}

// One of Table V, the same.
pub fn five_columns(out: Stdout) -> io::Result<()> {
    let label = "000 table V short, K = 5, M";
    code(out, label, source000::V_K5_M163, 12, &mut [0; 328])?;
    code(out, label, source000::V_K5_M163, 14, &mut [0; 1096])
}

// And with P lowered to 106, below its voltage 117.
pub fn five_lowered(out: Stdout) -> io::Result<()> {
    let label = "000 table V short, K = 5, P";
    let lowered = Code {
        lift: 106,
        rows: source000::V_K5_M163.rows,
    };
    code(out, label, lowered, 8, &mut [0; 40])?;
    code(out, label, lowered, 10, &mut [0; 136])
}
