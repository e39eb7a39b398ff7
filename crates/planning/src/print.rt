ghost use Rattle.std.specs.Prelude.{◌+◌, ◌<◌, ◌^◌, length};
ghost use Rattle.refusal.specs.Lowest.{lowest};
ghost use Rattle.graph.specs.Girth.{Passes};
ghost use Rattle.writing.specs.Wrote.{Wrote};
ghost use Rattle.exponent.specs.Limits.{WellFormed};
ghost use Rattle.exponent.specs.Tanner.{tanner};
ghost use Rattle.alist.specs.Calls.{alist_text, write_rules};
ghost use Rattle.planning.specs.Output.{refused_line, printed};
ghost use Rattle.planning.specs.Steps.{Printed};

use refusal::Refusal;

// Writes bytes where there is room, and returns the next place.
#[tactic(auto, using(writing::proofs::Wrote::going_start, crate::proofs::Printing::byte_done, writing::proofs::Wrote::all_done))]
fn put_bytes(text: &mut [u8], at: usize, bytes: &[u8]) -> usize
    requires { at + length bytes.now < 2 ^ 64 }
    ensures { Wrote text.old at bytes.now result text.new }
{
    let mut o = at;
    for &b in bytes {
        o = decimal::put_byte(text, o, b);
    }
    o
}

// Prints the line of a refusal.
#[tactic(auto, using(crate::proofs::Printing::number_short))]
pub fn refused(r: Refusal, text: &mut [u8]) -> usize
    ensures { Printed text.old (refused_line r) result text.new }
{
    let number = r.number() as usize;
    let a = put_bytes(text, 0, b"refused ");
    let b = decimal::put_number(text, a, number);
    let end = decimal::put_byte(text, b, b'\n');
    end.min(text.len())
}

// Prints the alist of a plan, or the line of the refusal.
#[tactic(auto, using(crate::proofs::Printing::alist_printed, crate::proofs::Printing::line_printed))]
fn write(
    plan: &[i16],
    rows: usize,
    cols: usize,
    lift: usize,
    byrow: &[u16],
    bycol: &[u16],
    text: &mut [u8],
) -> usize
    ensures { Printed text.old (printed (lowest (write_rules plan.now rows cols lift byrow.now bycol.now text.old))
        (alist_text plan.now rows cols lift)) result text.new }
{
    match alist::write(plan, rows, cols, lift, byrow, bycol, text) {
        Ok(n) => n,
        Err(r) => refused(r, text),
    }
}

// Judges a built plan at 12, and prints its alist. Every built plan passes (`built_is_good` of crate table), so the last
// arm is never taken.
#[tactic(auto, using(crate::proofs::Printing::told_passed))]
pub fn judged(
    plan: &[i16],
    rows: usize,
    cols: usize,
    lift: usize,
    byrow: &[u16],
    bycol: &[u16],
    text: &mut [u8],
) -> usize
    requires { WellFormed plan.now rows cols lift × Passes (tanner plan.now rows cols lift) 12 }
    ensures { Printed text.old (printed (lowest (write_rules plan.now rows cols lift byrow.now bycol.now text.old))
        (alist_text plan.now rows cols lift)) result text.new }
{
    match girth::test(plan, rows, cols, lift, 12) {
        Ok(None) => write(plan, rows, cols, lift, byrow, bycol, text),
        Ok(Some(_)) | Err(_) => 0,
    }
}
