// Rounds of bit flipping (document 02, slip 12): a small plan with all bytes, large plans, and what is turned away.
ghost use Rattle.std.specs.Prelude.{◌≤◌};

use crate::encodings::{EXAMPLE, bits};
use crate::joins::show;
use crate::plan::{Case, Weighed};
use crate::say::refused;
use crate::source000_sts::{Code, S_STS_13_M486, STS_9_M151, STS_9_M665, STS_9_M2723};
use crate::source003::{checksum, differing, put_received};
use crate::steiner_plans::voltages;
use std::io;
use std::io::Stdout;

// One round. Writes how many bits were turned, or the refusal.
fn flip(out: Stdout, plan: Case<'_>, word: &mut [u8]) -> io::Result<()> {
    let s = plan.shape;
    print!(out; ": ")?;
    match flipping::flip(plan.entries, s.rows, s.cols, s.lift, word) {
        Ok(n) => print!(out; "{n} turned"),
        Err(r) => refused(out, r),
    }
}

// A round on a small word. Writes the plan, the word, what came of it, and the word then.
fn small<const BYTES: usize>(out: Stdout, plan: Case<'_>, before: [u8; BYTES]) -> io::Result<()>
    requires { BYTES ≤ 65536 }
{
    let mut word = before;
    print!(out; "turned,")?;
    show(out, plan)?;
    print!(out; ", frame")?;
    bits(out, &before)?;
    flip(out, plan, &mut word)?;
    print!(out; ", {} bytes changed:", differing(&before, &word))?;
    bits(out, &word)?;
    println!(out)
}

// Order 7's Steiner plan at P = 1, the Fano plane.
fn fano() -> [i16; 49] {
    let mut it = Weighed::<49, 7, 7>::zeros();
    let _ = steiner::build(7, 1, &[0; 21], &mut it.entries, &mut it.rows, &mut it.cols);
    it.entries
}

// The plan of seven rows and columns at P = 1.
fn seven(entries: &[i16; 49]) -> Case<'_> {
    Case::new(entries, 7, 7, 1)
}

// A codeword of it: the triples that miss the last point.
const CODEWORD: [u8; 7] = [1, 0, 1, 1, 0, 1, 0];

// The codeword as it is, with one error, and with two.
pub fn order_seven(out: Stdout) -> io::Result<()> {
    let entries = fano();
    let plan = seven(&entries);
    small(out, plan, CODEWORD)?;
    small(out, plan, [1, 0, 1, 1, 0, 1, 1])?;
    small(out, plan, [0, 0, 1, 1, 0, 1, 1])
}

// Rounds: which bits of a codeword are wrong, every `step`th or none.
const ROUNDS: [(&str, usize); 4] = [
    (", code frame", 0),
    ("; bit 0 wrong", 65536),
    ("; every 97th bit wrong", 97),
    ("; every 3rd bit wrong", 3),
];

// Rounds on a codeword of that many bits, all alike: as it is, with one error, with few and with many. Writes what came of each, and in
// how many bytes the word then differs from the codeword.
fn rounds<const BITS: usize>(out: Stdout, plan: Case<'_>, bit: u8) -> io::Result<()>
    requires { BITS ≤ 65536 }
{
    let codeword = [bit; BITS];
    let mut word = codeword;
    let wrong = u8::from(bit == 0);
    print!(out; ", P = {}, all bits {bit}", plan.shape.lift)?;
    for (label, step) in ROUNDS {
        put_received(&codeword, step, wrong, &mut word);
        print!(out; "{label}")?;
        flip(out, plan, &mut word)?;
        print!(out;
            ", {} bytes differ, checksum {}",
            differing(&codeword, &word),
            checksum(&word)
        )?;
    }
    println!(out)
}

// The plan of a code of source 000, Table VI, and a codeword of all bits alike.
fn table_six_code<const BITS: usize>(out: Stdout, code: &Code, bit: u8) -> io::Result<()>
    requires { BITS ≤ 65536 }
{
    let entries = code.entries();
    print!(out; "turned, 000 table VI {}", code.base.label())?;
    rounds::<BITS>(out, code.plan(&entries), bit)
}

// Each row of STS(9) has four blocks, so that all bits 1 are a codeword.
pub fn table_six(out: Stdout) -> io::Result<()> {
    table_six_code::<1812>(out, &STS_9_M151, 1)?;
    table_six_code::<7980>(out, &STS_9_M665, 1)?;
    table_six_code::<32676>(out, &STS_9_M2723, 1)?;
    table_six_code::<9720>(out, &S_STS_13_M486, 0)
}

// Order 19's Steiner plan at its largest lift.
pub fn order_nineteen(out: Stdout) -> io::Result<()> {
    let mut it = Weighed::<1083, 19, 57>::zeros();
    let _ = steiner::build(
        19,
        1149,
        &voltages::<171>(),
        &mut it.entries,
        &mut it.rows,
        &mut it.cols,
    );
    print!(out; "turned, steiner 19")?;
    rounds::<65493>(out, it.plan(1149), 0)
}

// A codeword of a plan of the shape of source 003, which has columns of two blocks.
const OF_TWO_IN_COLUMN: [u8; 15] = [0, 1, 0, 1, 0, 1, 0, 1, 1, 1, 0, 0, 0, 0, 0];

// Refusals 16 before 18, and 18 before 19. With a block less in the last column, 19 before 32, and 32; with one more in the first, 32.
pub fn turned_away(out: Stdout) -> io::Result<()> {
    let mut entries = fano();
    small(out, seven(&entries), [3; 6])?;
    small(out, seven(&entries), [1, 2, 1, 1, 0, 1, 3])?;
    entries[48] = -1;
    small(out, seven(&entries), [1, 0, 1, 2, 0, 2, 0])?;
    small(out, seven(&entries), CODEWORD)?;
    entries[48] = 0;
    entries[14] = 0;
    small(out, seven(&entries), CODEWORD)?;
    small(out, Case::new(&EXAMPLE, 3, 5, 3), OF_TWO_IN_COLUMN)
}
