// Row and column weights as the test program writes them.
use crate::plan::Weights;
use std::io;
use std::io::Stdout;

// The numbers of a list.
fn list(out: Stdout, label: &str, list: &[u16]) -> io::Result<()> {
    print!(out; "{label}")?;
    for weight in list {
        print!(out; " {weight}")?;
    }
    Ok(())
}

// Both lists of a plan.
pub fn both(out: Stdout, weights: Weights<'_>) -> io::Result<()> {
    list(out, "row weights", weights.rows)?;
    list(out, ", column weights", weights.cols)?;
    println!(out)
}

// The least number of a list, and the greatest.
pub fn bounds(out: Stdout, label: &str, list: &[u16]) -> io::Result<()> {
    let least = list.iter().copied().min().unwrap_or(0);
    let most = list.iter().copied().max().unwrap_or(0);
    print!(out; "{label}{least} to {most}")
}
