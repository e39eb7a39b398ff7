// Frames of data bits (document 02, slip 10): small plans with all bits, and what is turned away. The lent word holds 7s before every call.
ghost use Rattle.std.specs.Prelude.{◌≤◌};

use crate::joins::show;
use crate::plan::Case;
use crate::say::refused;
use crate::source003;
use refusal::Refusal;
use std::io;
use std::io::Stdout;

// The bytes of a list.
pub fn bits(out: Stdout, list: &[u8]) -> io::Result<()> {
    for byte in list {
        print!(out; " {byte}")?;
    }
    Ok(())
}

// How many bytes of a list are this one.
pub fn count(list: &[u8], byte: u8) -> usize {
    list.iter().filter(|b| **b == byte).count()
}

// Encodes in a place.
pub fn encode(plan: Case<'_>, info: &[u8], word: &mut [u8]) -> Result<(), Refusal> {
    let s = plan.shape;
    encoding::encode(plan.entries, s.rows, s.cols, s.lift, info, word)
}

// Encodes in a word of that many 7s, and writes the plan, the data bits and the frame, or the refusal and whether the word is as it was.
fn small<const BYTES: usize>(out: Stdout, plan: Case<'_>, info: &[u8]) -> io::Result<()>
    requires { BYTES ≤ 65536 }
{
    let mut word = [7u8; BYTES];
    print!(out; "frame,")?;
    show(out, plan)?;
    print!(out; ", {} data bits", info.len())?;
    bits(out, info)?;
    print!(out; " in {BYTES} bytes:")?;
    match encode(plan, info, &mut word) {
        Ok(()) => bits(out, &word)?,
        Err(r) => {
            print!(out; " ")?;
            refused(out, r)?;
            let not = if count(&word, 7) == BYTES { "" } else { "not " };
            print!(out; ", {not}all bytes still 7")?;
        }
    }
    println!(out)
}

// A plan of the shape, whose column 2 has the remainders 1, 1 and 2 by 3; others differ from it in an entry or two.
pub const EXAMPLE: [i16; 15] = [0, -1, 1, 0, 2, 3, 0, 4, 1, -1, -1, 0, 2, -1, 1];

const ALL_EQUAL: [i16; 15] = [0, -1, 1, 0, 2, 3, 0, 4, 1, -1, -1, 0, 7, -1, 1];

const OFF_DIAGONALS: [i16; 15] = [0, -1, 1, 0, 2, 3, 0, 4, 1, -1, 0, 0, 2, -1, 1];

const TURNED: [i16; 15] = [0, -1, 1, 0, 2, 4, 0, 4, 1, -1, -1, 0, 2, -1, 1];

const TWO_FILLED: [i16; 15] = [0, -1, 1, 0, 2, 3, 0, 4, 1, -1, -1, 0, -1, -1, 1];

const ALL_DIFFERENT: [i16; 15] = [0, -1, 1, 0, 2, 3, 0, 2, 1, -1, -1, 0, 3, -1, 1];

const NO_ENTRY: [i16; 15] = [0, -1, 1, 0, 2, 3, 0, 4, -2, -1, -1, 0, 2, -1, 1];

// Data bits: for that plan, and of another length or with a byte above 1.
const ONE: [u8; 6] = [1, 0, 0, 0, 0, 0];

const FOUR: [u8; 6] = [0, 1, 1, 1, 0, 1];

const ALL: [u8; 6] = [1, 1, 1, 1, 1, 1];

const TOO_FEW: [u8; 5] = [1, 0, 0, 0, 0];

const TOO_MANY: [u8; 7] = [1, 0, 0, 0, 0, 0, 0];

const WITH_TWO: [u8; 6] = [1, 0, 0, 2, 0, 0];

// A plan of three rows and five columns at P = 3.
fn three(entries: &[i16; 15]) -> Case<'_> {
    Case::new(entries, 3, 5, 3)
}

pub fn small_plans(out: Stdout) -> io::Result<()> {
    small::<15>(out, three(&EXAMPLE), &ONE)?;
    small::<15>(out, three(&EXAMPLE), &FOUR)?;
    small::<15>(out, three(&EXAMPLE), &ALL)?;
    small::<15>(out, three(&ALL_EQUAL), &ONE)?;
    small::<15>(out, three(&ALL_EQUAL), &FOUR)?;
    small::<5>(out, three(&EXAMPLE).at(1), &[1, 0])?;
    small::<5>(out, three(&EXAMPLE).at(1), &[1, 1])
}

// Four filled blocks in column m − 1, all with the same remainder: a plan by the rule with one more.
fn four_filled(out: Stdout) -> io::Result<()> {
    let mut entries = source003::entries::<20>(4, 5, 3);
    entries[8] = 5;
    small::<15>(out, Case::new(&entries, 4, 5, 3), &[1, 0, 0])
}

// Of the word's length, a byte too short and too long; of the plan's shape: two rows, no data column, and others.
fn lengths_and_shapes(out: Stdout) -> io::Result<()> {
    let two_rows = [0, 1, 0, 2, 3, 4, 1, -1];
    let no_data = [0, -1, 1, 3, 0, 4, -1, 0, 2];
    small::<14>(out, three(&EXAMPLE), &ONE)?;
    small::<16>(out, three(&EXAMPLE), &ONE)?;
    small::<12>(out, Case::new(&two_rows, 2, 4, 3), &ONE)?;
    small::<9>(out, Case::new(&no_data, 3, 3, 3), &[])?;
    small::<15>(out, three(&OFF_DIAGONALS), &ONE)?;
    small::<15>(out, three(&TURNED), &ONE)?;
    small::<15>(out, three(&TWO_FILLED), &ONE)?;
    four_filled(out)?;
    small::<15>(out, three(&ALL_DIFFERENT), &ONE)
}

// Refusals 16, 30, 31 and 6; last, 16 before 30 and 30 before 31.
pub fn turned_away(out: Stdout) -> io::Result<()> {
    lengths_and_shapes(out)?;
    small::<15>(out, three(&EXAMPLE), &TOO_FEW)?;
    small::<15>(out, three(&EXAMPLE), &TOO_MANY)?;
    small::<15>(out, three(&EXAMPLE), &WITH_TWO)?;
    small::<15>(out, three(&NO_ENTRY), &ONE)?;
    small::<14>(out, three(&TURNED), &ONE)?;
    small::<15>(out, three(&TURNED), &TOO_FEW)
}
