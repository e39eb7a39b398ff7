// Plans of the shape of source 003, formula (5), which prints no voltages: those here are by a rule. Their frames of data bits (document 02,
// slip 10) are checked, lose bits and are filled again. The lent word holds 7s before every call.
ghost use Rattle.std.specs.Prelude.{◌≤◌, ◌<◌};

use crate::encodings::{count, encode};
use crate::plan::Case;
use crate::say::refused;
use peeling::Filling;
use std::io;
use std::io::Stdout;

// A voltage as an entry.
fn filled(e: usize) -> i16 {
    i16::try_from(e).unwrap_or(-1)
}

// Column k before column m − 1: 0 in row k, P in row k + 1.
fn of_front(i: usize, k: usize, lift: usize) -> i16
    requires { k < 1000 }
{
    if i == k {
        0
    } else if i == k + 1 {
        filled(lift)
    } else {
        -1
    }
}

// Column m − 1: 5 in the first row, 11 in row m / 2, 5 + P in the last.
fn of_last(i: usize, rows: usize, lift: usize) -> i16
    requires { (i < 1000) × (lift ≤ 4096) }
{
    if i == 0 {
        5
    } else if i == rows / 2 {
        11
    } else if i + 1 == rows {
        filled(5 + lift)
    } else {
        -1
    }
}

fn product(a: usize, b: usize) -> usize
    requires { (a ≤ 65536) × (b ≤ 65536) }
    ensures { result ≤ 4294967296 }
{
    a * b
}

// A data column: every third row, with voltages at and above P.
fn of_data(i: usize, j: usize) -> i16
    requires { (i < 1000) × (j < 1000) }
{
    if (i + j) % 3 == 0 {
        filled(13 * product(i, i) + 7 * product(j, j) + 31 * product(i, j) + 5)
    } else {
        -1
    }
}

// The entry in row i and column j, by the rule.
fn entry(rows: usize, lift: usize, i: usize, j: usize) -> i16
    requires { (i < 1000) × (j < 1000) × (lift ≤ 4096) }
{
    if j + 1 < rows {
        of_front(i, j, lift)
    } else if j + 1 == rows {
        of_last(i, rows, lift)
    } else {
        of_data(i, j)
    }
}

// The entries of a plan by the rule.
pub fn entries<const N: usize>(rows: usize, cols: usize, lift: usize) -> [i16; N]
    requires { (N ≤ 1000) × (0 < cols) × (lift ≤ 4096) }
{
    let mut entries = [0i16; N];
    for (place, e) in entries.iter_mut().enumerate() {
        *e = entry(rows, lift, place / cols, place % cols);
    }
    entries
}

// Data bit d.
fn data_bit(d: usize) -> u8
    requires { d < 65536 }
{
    let n = product(d, d) / 3 + d / 5;
    u8::from(n % 2 == 1)
}

// Data bits by the rule.
fn data<const N: usize>() -> [u8; N]
    requires { N ≤ 65536 }
{
    let mut info = [0u8; N];
    for (d, bit) in info.iter_mut().enumerate() {
        *bit = data_bit(d);
    }
    info
}

// One number for all bytes of a word.
pub fn checksum(word: &[u8]) -> usize {
    let mut h = 0;
    for byte in word {
        h = (h * 31 + usize::from(*byte) + 1) % 65521;
    }
    h
}

// Whether k is one of every `step` places, or of none if `step` is 0.
fn is_marked(k: usize, step: usize) -> bool {
    step != 0 && k % step == 0
}

// Puts a word into another place, with another byte at every `step`th place, or at none if `step` is 0.
pub fn put_received(word: &[u8], step: usize, byte: u8, received: &mut [u8]) {
    for (k, place) in received.iter_mut().enumerate() {
        *place = match word.get(k) {
            Some(bit) if !is_marked(k, step) => *bit,
            _ => byte,
        };
    }
}

// In how many places two words of the same length differ.
pub fn differing(a: &[u8], b: &[u8]) -> usize {
    a.iter().zip(b).filter(|(x, y)| *x != *y).count()
}

// A frame's ones, its checksum, and what the frame check says.
fn described(out: Stdout, plan: Case<'_>, word: &[u8]) -> io::Result<()> {
    let s = plan.shape;
    print!(out; ", {} ones, checksum {}, ", count(word, 1), checksum(word))?;
    match syndrome::check(plan.entries, s.rows, s.cols, s.lift, word) {
        Ok(None) => print!(out; "all checks even"),
        Ok(Some(c)) => print!(out; "odd check {c}"),
        Err(r) => refused(out, r),
    }
}

// Every 23rd bit lost and filled again; a byte that is still lost differs from the frame too.
fn lost_and_filled(out: Stdout, plan: Case<'_>, word: &[u8], lost: &mut [u8]) -> io::Result<()> {
    let s = plan.shape;
    put_received(word, 23, 2, lost);
    print!(out; "; every 23rd bit lost: ")?;
    match peeling::fill(plan.entries, s.rows, s.cols, s.lift, lost) {
        Ok(Filling { filled, left }) => {
            let differing = differing(word, lost);
            print!(out; "filled {filled}, left {left}, {differing} bytes differ")
        }
        Err(r) => refused(out, r),
    }
}

// Encodes for a plan and data bits by the rule, in a word of 7s, and writes what came of it.
fn frame<const N: usize, const DATA: usize, const BITS: usize>(
    out: Stdout,
    rows: usize,
    cols: usize,
    lift: usize,
) -> io::Result<()>
    requires { (N ≤ 1000) × (DATA ≤ 65536) × (BITS ≤ 65536) × (0 < cols) × (lift ≤ 4096) }
{
    let entries = entries::<N>(rows, cols, lift);
    let plan = Case::new(&entries, rows, cols, lift);
    let mut word = [7u8; BITS];
    print!(out; "frame, 003 formula (5), {rows} x {cols}, P = {lift}: ")?;
    match encode(plan, &data::<DATA>(), &mut word) {
        Ok(()) => print!(out; "encoded")?,
        Err(r) => refused(out, r)?,
    }
    described(out, plan, &word)?;
    lost_and_filled(out, plan, &word, &mut [0; BITS])?;
    println!(out)
}

// A small plan; two of the size of the codes of 802.16 that source 003 compares with; and the most bits, at the largest lift.
pub fn frames(out: Stdout) -> io::Result<()> {
    frame::<32, 108, 216>(out, 4, 8, 27)?;
    frame::<288, 1152, 2304>(out, 12, 24, 96)?;
    frame::<144, 1728, 2304>(out, 6, 24, 96)?;
    frame::<48, 53248, 65536>(out, 3, 16, 4096)
}
