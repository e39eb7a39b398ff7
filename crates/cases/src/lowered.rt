// A matrix with P lowered below its largest voltage, by a tenth and by a quarter of that, so that voltages stand at or above P.
use crate::plan::Case;
use crate::say::{LARGEST, judged};
use std::io;
use std::io::Stdout;

// The largest voltage, or 0.
fn largest(entries: &[i16]) -> usize {
    let most = entries.iter().copied().max().unwrap_or(0);
    usize::try_from(most).unwrap_or(0)
}

// The verdict at the largest target, with P lowered, behind a mark.
fn at(out: Stdout, mark: &str, plan: Case<'_>, lift: usize) -> io::Result<()> {
    print!(out; "{mark} at P = {lift} ")?;
    judged(out, plan.at(lift), LARGEST)
}

pub fn lowered(out: Stdout, plan: Case<'_>) -> io::Result<()> {
    let most = largest(plan.entries);
    at(out, ";", plan, most - most / 10)?;
    at(out, ",", plan, most - most / 4)
}
