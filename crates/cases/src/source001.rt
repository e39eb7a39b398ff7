// Labelings of base matrix (6) of source 001 as plans of 6 rows and 8 columns, with -1 where (6) has 0. The i-th number
// printed for a row stands at the row's i-th nonzero entry. Each is judged at its girth and at the largest target, then with P
// lowered.
use crate::lowered::lowered;
use crate::plan::Case;
use crate::say::verdicts;
use std::io;
use std::io::Stdout;

pub type Rows = [[i16; 8]; 6];

// Table II, rate 1/4: the code (168, 42), with its printed girth 8.
pub const II_M21: Rows = [
    [7, -1, -1, 3, 0, -1, 5, -1],
    [-1, 1, -1, -1, 0, 4, 10, -1],
    [-1, -1, 0, 4, -1, 7, 9, -1],
    [-1, 7, 6, 0, -1, -1, -1, 3],
    [0, -1, 0, -1, 7, -1, -1, 6],
    [7, 7, -1, -1, -1, 0, -1, 10],
];

// Table II, rate 1/4: the code (160, 40), with its printed girth 10.
pub const II_M20: Rows = [
    [0, -1, -1, 6, 15, -1, 11, -1],
    [-1, 6, -1, -1, 9, 0, 0, -1],
    [-1, -1, 6, 0, -1, 2, 14, -1],
    [-1, 19, 0, 12, -1, -1, -1, 4],
    [13, -1, 4, -1, 0, -1, -1, 4],
    [12, 0, -1, -1, -1, 5, -1, 0],
];

// The code (2112, 528), printed with girth 14 in the text beside Table II. Its girth is 10: columns 3, 2, 5, 7, 0 close
// with the voltage -245 + 260 + 66 - 130 + 55 - 6 = 0.
const G14_M264: Rows = [
    [0, -1, -1, 0, 0, -1, 0, -1],
    [-1, 0, -1, -1, 13, 0, 181, -1],
    [-1, -1, 0, 87, -1, 66, 101, -1],
    [-1, 7, 260, 245, -1, -1, -1, 0],
    [0, -1, 124, -1, 33, -1, -1, 6],
    [107, 0, -1, -1, -1, 130, -1, 55],
];

// The plan of a labeling at a P.
pub fn plan_at(rows: &Rows, lift: usize) -> Case<'_> {
    Case::new(rows.as_flattened(), 6, 8, lift)
}

// Judges a labeling at its girth and at the largest target, then with P lowered; M = `lift`.
fn labeling(out: Stdout, label: &str, girth: usize, lift: usize, rows: &Rows) -> io::Result<()> {
    let plan = plan_at(rows, lift);
    print!(out; "{label}, M = {lift}: ")?;
    verdicts(out, plan, girth)?;
    lowered(out, plan)?;
    println!(out)
}

pub fn table_two(out: Stdout) -> io::Result<()> {
    labeling(out, "001 table II", 8, 21, &II_M21)?;
    labeling(out, "001 table II", 10, 20, &II_M20)
}

pub fn girth_fourteen(out: Stdout) -> io::Result<()> {
    labeling(out, "001 printed with girth 14", 10, 264, &G14_M264)
}
