// Two plans made one (document 02, slip 9): small plans with their entries, pairs of the sources' plans, and what is turned away.
use crate::plan::Case;
use crate::say::{LARGEST, judged, refused};
use crate::source000::Code;
use crate::steiner_plans::show_entry;
use crate::{source000, source001, source002};
use refusal::Refusal;
use std::io;
use std::io::Stdout;

// No entry reaches this lift: it leaves all as they are.
const ABOVE_ALL: usize = 32768;

// The entries as they stand, with a slash between rows.
fn entries(out: Stdout, entries: &[i16], cols: usize) -> io::Result<()> {
    for (i, row) in entries.chunks(cols.max(1)).enumerate() {
        if 0 < i {
            print!(out; " /")?;
        }
        for e in row {
            show_entry(out, *e, ABOVE_ALL)?;
        }
    }
    Ok(())
}

// The entries and P.
pub fn show(out: Stdout, plan: Case<'_>) -> io::Result<()> {
    entries(out, plan.entries, plan.shape.cols)?;
    print!(out; ", P = {}", plan.shape.lift)
}

// Joins two plans in a lent place.
fn join(first: Case<'_>, second: Case<'_>, joined: &mut [i16]) -> Result<usize, Refusal> {
    let s = first.shape;
    let t = second.shape;
    crt::join(
        first.entries,
        s.rows,
        s.cols,
        s.lift,
        second.entries,
        t.rows,
        t.cols,
        t.lift,
        joined,
    )
}

// The joined plan, of the first one's rows and columns.
fn joined_plan<'a>(first: Case<'_>, joined: &'a [i16], lift: usize) -> Case<'a> {
    Case::new(joined, first.shape.rows, first.shape.cols, lift)
}

// Joins two small plans, and writes them, the joined one and its verdict.
fn small(out: Stdout, first: Case<'_>, second: Case<'_>, joined: &mut [i16]) -> io::Result<()> {
    print!(out; "joined,")?;
    show(out, first)?;
    print!(out; " and")?;
    show(out, second)?;
    print!(out; " in {} places:", joined.len())?;
    match join(first, second, joined) {
        Ok(lift) => {
            let plan = joined_plan(first, joined, lift);
            show(out, plan)?;
            print!(out; ", ")?;
            judged(out, plan, LARGEST)?;
        }
        Err(r) => {
            print!(out; " ")?;
            refused(out, r)?;
        }
    }
    println!(out)
}

// Of two rows and two columns.
fn two(entries: &[i16; 4], lift: usize) -> Case<'_> {
    Case::new(entries, 2, 2, lift)
}

// The plan 0 0 / 0 1 of document 01, and others that differ from it in an entry.
const EXAMPLE: [i16; 4] = [0, 0, 0, 1];

const WITH_TWO: [i16; 4] = [0, 0, 0, 2];

const ONE_EMPTY: [i16; 4] = [0, 0, 0, -1];

const NO_ENTRY: [i16; 4] = [0, 0, 0, -2];

const NO_SECOND: [i16; 4] = [0, -2, 0, 1];

// The plan of document 01 with itself, and with another voltage.
pub fn example(out: Stdout) -> io::Result<()> {
    small(out, two(&EXAMPLE, 2), two(&EXAMPLE, 3), &mut [0; 4])?;
    small(out, two(&EXAMPLE, 2), two(&WITH_TWO, 3), &mut [0; 4])
}

// Voltages at and above P.
const ABOVE_FOUR: [i16; 6] = [32767, -1, 4, 2, 9, 5];

const ABOVE_FIVE: [i16; 6] = [10, -1, 4096, 5, 0, 11];

pub fn above(out: Stdout) -> io::Result<()> {
    let first = Case::new(&ABOVE_FOUR, 2, 3, 4);
    let second = Case::new(&ABOVE_FIVE, 2, 3, 5);
    small(out, first, second, &mut [0; 6])
}

// A plan's P, and the verdict on it.
fn verdict(out: Stdout, label: &str, plan: Case<'_>) -> io::Result<()> {
    print!(out; "{label}P = {}: ", plan.shape.lift)?;
    judged(out, plan, LARGEST)
}

// Joins two plans, and writes the verdict on each and on the joined one.
fn large(out: Stdout, first: Case<'_>, second: Case<'_>, joined: &mut [i16]) -> io::Result<()> {
    verdict(out, ", ", first)?;
    verdict(out, ", ", second)?;
    print!(out; "; ")?;
    match join(first, second, joined) {
        Ok(lift) => verdict(out, "", joined_plan(first, joined, lift))?,
        Err(r) => refused(out, r)?,
    }
    println!(out)
}

// The labelings of source 001, Table II.
pub fn labelings(out: Stdout) -> io::Result<()> {
    let first = source001::plan_at(&source001::II_M21, 21);
    let second = source001::plan_at(&source001::II_M20, 20);
    print!(out; "joined, 001 table II")?;
    large(out, first, second, &mut [0; 48])
}

// Codes of source 000 with the same K.
fn codes(out: Stdout, label: &str, first: Code, second: Code) -> io::Result<()> {
    let cols = first.cols();
    let mut joined = [0i16; 36];
    print!(out; "joined, 000 tables {label}, K = {cols}")?;
    large(
        out,
        first.plan(&first.entries()),
        second.plan(&second.entries()),
        &mut joined[..3 * cols],
    )
}

pub fn tables(out: Stdout) -> io::Result<()> {
    codes(
        out,
        "III and II",
        source000::III_K4_M9,
        source000::II_K4_M23,
    )?;
    codes(out, "II and IV", source000::II_K5_M49, source000::IV_K5_M61)?;
    codes(out, "II and V", source000::II_K7_M7, source000::V_K7_M566)
}

// Example 1 of source 002 at P = 1 and at the largest lift, which is the joined one too.
pub fn largest_lift(out: Stdout) -> io::Result<()> {
    print!(out; "joined, 002 example 1")?;
    large(
        out,
        source002::plan_at(1),
        source002::plan_at(4096),
        &mut [0; 12],
    )
}

fn one_row(out: Stdout, lift: usize, lift2: usize) -> io::Result<()> {
    let zeros = [0i16; 17];
    let plan = Case::new(&zeros, 1, 17, lift);
    print!(out; "joined, a row of 17 zeros")?;
    large(out, plan, plan.at(lift2), &mut [0; 17])
}

// The joined size: one bit below 65,536, 16 above that; and a joined lift of 4,097.
pub fn sizes(out: Stdout) -> io::Result<()> {
    one_row(out, 15, 257)?;
    one_row(out, 16, 241)?;
    small(out, two(&EXAMPLE, 17), two(&EXAMPLE, 241), &mut [0; 4])
}

// A shared divisor, other empty blocks, other rows and columns, and a place of another length, alone and together.
pub fn turned_away(out: Stdout) -> io::Result<()> {
    let one_row_of_four = Case::new(&EXAMPLE, 1, 4, 3);
    small(out, two(&EXAMPLE, 4), two(&EXAMPLE, 6), &mut [0; 4])?;
    small(out, two(&EXAMPLE, 4), two(&ONE_EMPTY, 6), &mut [0; 3])?;
    small(out, two(&EXAMPLE, 2), two(&ONE_EMPTY, 3), &mut [0; 4])?;
    small(out, two(&ONE_EMPTY, 2), two(&EXAMPLE, 3), &mut [0; 3])?;
    small(out, two(&EXAMPLE, 2), one_row_of_four, &mut [0; 4])?;
    small(out, two(&EXAMPLE, 2), two(&EXAMPLE, 3), &mut [0; 3])?;
    small(out, two(&EXAMPLE, 2), two(&EXAMPLE, 3), &mut [0; 5])
}

// An entry that is no block: of the second plan, before the shared divisor, and of both, with the place in the first.
pub fn no_block(out: Stdout) -> io::Result<()> {
    small(out, two(&EXAMPLE, 2), two(&NO_ENTRY, 2), &mut [0; 4])?;
    small(out, two(&NO_ENTRY, 2), two(&NO_SECOND, 3), &mut [0; 4])
}
