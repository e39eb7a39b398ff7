// What the test program writes of an answer: refusals, verdicts, sizes.
use crate::plan::Case;
use refusal::Refusal;
use std::io;
use std::io::Stdout;

// A refusal: its number and its values.
pub fn refused(out: Stdout, why: Refusal) -> io::Result<()> {
    print!(out; "refused {}", why.number())?;
    match why {
        Refusal::Entry(place)
        | Refusal::NegativeEntry(place)
        | Refusal::TextPlace(place)
        | Refusal::Byte(place)
        | Refusal::Erasure(place)
        | Refusal::Token(place) => print!(out; " with {place}"),
        Refusal::Unsound { i, k, r, t } => print!(out; " with {i} {k} {r} {t}"),
        _ => Ok(()),
    }
}

// The largest target: a plan that fails there shows its girth.
pub const LARGEST: usize = 18;

// The verdict at a target; of a plan that fails, its girth.
pub fn judged(out: Stdout, plan: Case<'_>, target: usize) -> io::Result<()> {
    let s = plan.shape;
    match girth::test(plan.entries, s.rows, s.cols, s.lift, target) {
        Ok(None) => print!(out; "passes {target}"),
        Ok(Some(cycle)) => { print!(out; "fails {target} with girth {}", 2 * cycle.n.min(LARGEST)) }
        Err(r) => refused(out, r),
    }
}

// The verdicts at a target and, where it is below that, at the largest.
pub fn verdicts(out: Stdout, plan: Case<'_>, target: usize) -> io::Result<()> {
    judged(out, plan, target)?;
    if target < LARGEST {
        print!(out; ", ")?;
        judged(out, plan, LARGEST)?;
    }
    Ok(())
}

// The sizes of a plan that was built, and its verdicts.
pub fn built(out: Stdout, plan: Case<'_>, target: usize) -> io::Result<()> {
    let s = plan.shape;
    print!(out; "{} x {}, ", s.rows, s.cols)?;
    verdicts(out, plan, target)
}
