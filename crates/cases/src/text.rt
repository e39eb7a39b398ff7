// alist text: the plan of the bench cases, and a call for others.
use crate::plan::{Case, Weights};
use crate::say::refused;
use refusal::Refusal;
use std::io;
use std::io::Stdout;

// Writes a plan's alist into a lent place. The text, or the refusal.
fn alist_in<'a>(
    text: &'a mut [u8],
    plan: Case<'_>,
    weights: Weights<'_>,
) -> Result<&'a [u8], Refusal> {
    let s = plan.shape;
    let length = alist::write(
        plan.entries,
        s.rows,
        s.cols,
        s.lift,
        weights.rows,
        weights.cols,
        text,
    )?;
    Ok(text.get(..length).unwrap_or(&[]))
}

// Bytes enough for the longest text here.
const ROOM: usize = 256;

// Writes the alist of a plan.
pub fn alist_of(out: Stdout, plan: Case<'_>, weights: Weights<'_>) -> io::Result<()> {
    let mut text = [0u8; ROOM];
    match alist_in(&mut text, plan, weights) {
        Ok(alist) => out.write_all(alist),
        Err(r) => {
            refused(out, r)?;
            println!(out)
        }
    }
}

// Bytes enough for the text of source 004's example 2.
const LARGE: usize = 65536;

// Writes the alist of a plan, and says whether it is that of another one with the same weights.
pub fn same_text(
    out: Stdout,
    plan: Case<'_>,
    other: Case<'_>,
    weights: Weights<'_>,
) -> io::Result<()> {
    let mut text = [0u8; LARGE];
    match alist_in(&mut text, plan, weights) {
        Ok(alist) => agreeing(out, other, weights, alist),
        Err(r) => refused(out, r),
    }
}

// Compares a text with the alist of a plan.
fn agreeing(out: Stdout, plan: Case<'_>, weights: Weights<'_>, text: &[u8]) -> io::Result<()> {
    let s = plan.shape;
    match alist::compare(
        plan.entries,
        s.rows,
        s.cols,
        s.lift,
        weights.rows,
        weights.cols,
        text,
    ) {
        Ok(()) => print!(out; "the same text"),
        Err(r) => refused(out, r),
    }
}

// The one-row plan 0 1 of the bench cases.
pub fn one_row(out: Stdout) -> io::Result<()> {
    println!(out; "alist of 0 1, P = 2:")?;
    alist_of(
        out,
        Case::new(&[0, 1], 1, 2, 2),
        Weights::new(&[2], &[1, 1]),
    )
}
