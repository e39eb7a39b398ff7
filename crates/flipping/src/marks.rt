// A byte keeps its bit while its odd checks are counted: each adds 2 to it, so that no check's parity moves and no second word is needed.
ghost use Rattle.std.specs.Prelude.{◌≡◌, [], ◌∷◌, ◌+◌, ◌*◌, ◌<◌, ◌≤◌, length};
ghost use Rattle.graph.specs.Graph.{bits_of};
ghost use Rattle.exponent.specs.Neighbours.{gather, bit_in};
ghost use Rattle.exponent.specs.Graphs.{graph, checks_of};
ghost use Rattle.syndrome.specs.Scan.{IsWord, Shifted};
ghost use Rattle.flipping.specs.Work.{Given, AtMost, Marked, MarkedTo, MarkedOn, is_flipped, unmarked, Unmarked};

use exponent::block::Block;
use exponent::position;
use index::rows::Rows;
use syndrome::scan;

// Marks the byte that row y of block b in column j joins.
#[tactic(auto, unfolding(syndrome::specs::Scan::Shifted))]
fn mark_block(b: Block, lift: usize, y: usize, j: usize, word: &mut [u8])
    requires { Shifted b lift × (y < lift) × (lift ≤ 4096) × (j * lift + lift ≤ length word.old) × AtMost 9 word.old }
    ensures { Marked word.old (gather lift (λ _. bit_in lift y b) (j ∷ [])) word.new }
{
    if let Block::Shift(e) = b {
        word[j * lift + position::wrap(y + e, lift)] += 2;
    }
}

// Marks each byte of check c, over the filled blocks of its row.
fn mark_check(rows: &Rows, c: usize, word: &mut [u8])
    requires { IsWord rows.now.plan word.old × (c < checks_of rows.now.plan) × AtMost 7 word.old }
    ensures { Marked word.old (bits_of (graph rows.now.plan) c) word.new }
{
    let lift = rows.plan.shape.lift;
    let i = c / lift;
    let y = c % lift;
    let mut from = 0;
    while let Some(j) = rows.next(i, from) {
        mark_block(rows.plan.block_at(i, j), lift, y, j, word);
        from = j + 1;
    }
}

// Marks each byte of check c, if the check is odd.
#[tactic(auto, using(crate::proofs::Odd::marked_odd, crate::proofs::Odd::marked_even), unfolding(graph::specs::Erasure::parity, exponent::specs::Tanner::tanner))]
fn mark_if_odd(rows: &Rows, c: usize, word: &mut [u8])
    requires { IsWord rows.now.plan word.old × (c < checks_of rows.now.plan) × AtMost 7 word.old }
    ensures { MarkedOn (graph rows.now.plan) c word.old word.new }
{
    if scan::scan_check(rows, c, word).sum % 2 == 1 {
        mark_check(rows, c, word);
    }
}

// Marks each byte once for each of its odd checks, in one pass over the checks.
#[tactic(auto, unfolding(crate::specs::Work::MarkedOn, exponent::specs::Tanner::tanner))]
pub fn mark_odd(rows: &Rows, word: &mut [u8])
    requires { Given rows.now.plan.entries.now rows.now.plan.shape word.old }
    ensures { MarkedTo (graph rows.now.plan) word.old word.new (checks_of rows.now.plan) }
{
    let shape = rows.plan.shape;
    for c in 0..shape.rows * shape.lift {
        mark_if_odd(rows, c, word);
    }
}

// Whether a byte has two marks or more.
fn is_flipped(x: u8) -> bool
    ensures { result ≡ is_flipped x }
{
    3 < x
}

// The bit that a marked byte becomes.
fn unmark(x: u8) -> u8
    ensures { result ≡ unmarked x }
{
    let bit = x % 2;
    if is_flipped(x) { 1 - bit } else { bit }
}

// Turns the bits whose bytes have two marks or more, and takes all marks off. Returns how many were turned.
#[tactic(auto, using(crate::proofs::Unmarking::unmarked_none, crate::proofs::Unmarking::unmarked_few))]
pub fn flip_marked(word: &mut [u8]) -> usize
    ensures { Unmarked word.old word.new result (length word.old) }
{
    let mut n = 0;
    for x in word.iter_mut() {
        if is_flipped(*x) {
            n += 1;
        }
        *x = unmark(*x);
    }
    n
}
