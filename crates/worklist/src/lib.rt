// The decoder's work: forced erasures are filled with marked bytes (4 or 5) until no check forces one, by passes over the checks
// and a waiting list.
#![tactic(auto)]

ghost use Rattle.std.specs.Prelude.{◌≡◌, ◌+◌, ◌<◌, ◌≤◌};
ghost use Rattle.graph.specs.Filling.{clash};
ghost use Rattle.exponent.specs.Graphs.{graph, checks_of, bits_in};
ghost use Rattle.syndrome.specs.Scan.{IsWord};
ghost use Rattle.worklist.specs.Work.{FilledCheck, Worked, Passed, Peeled};
ghost use Rattle.worklist.specs.Pending.{Pending};

use exponent::block::Block;
use exponent::plan::Plan;
use exponent::position;
use index::rows::{Graph, Rows};
use syndrome::scan;
use waiting::Stack;

pub mod marks; // marks.rt: turning marked bytes back or into bits
mod waiting; // waiting.rt: the checks that are to be looked at again

// Fills the erasure of check c with a marked byte (4 or 5), if it is the only one. Returns the bit that was filled.
fn fill_check(rows: &Rows, c: usize, word: &mut [u8]) -> Option<usize>
    requires { IsWord rows.now.plan word.old × (c < checks_of rows.now.plan) }
    ensures { FilledCheck (graph rows.now.plan) c word.old word.new result }
{
    let s = scan::scan_check(rows, c, word);
    if s.erased == 1 {
        word[s.at] = 4 + (s.sum % 2) as u8;
        Some(s.at)
    } else {
        None
    }
}

// Puts the check that bit (j, z) has in row i on the waiting list, if there is room.
#[tactic(auto, using(exponent::proofs::Tanner::shift_low))]
fn push_check(plan: &Plan, i: usize, j: usize, z: usize, waiting: &mut Stack)
    requires { (i < plan.now.shape.rows) × (j < plan.now.shape.cols) × (z < plan.now.shape.lift) × Pending (checks_of plan.now) waiting.old }
    ensures { Pending (checks_of plan.now) waiting.new × (waiting.new.top ≤ waiting.old.top + 1) }
{
    let lift = plan.shape.lift;
    if let Block::Shift(e) = plan.block_at(i, j) {
        waiting.push(i * lift + position::wrap(z + (lift - e), lift));
    }
}

// Puts the checks of a bit on the waiting list, over the filled blocks of its column.
fn push_checks(g: &Graph, bit: usize, waiting: &mut Stack)
    requires { (bit < bits_in g.now.rows.plan) × Pending (checks_of g.now.rows.plan) waiting.old }
    ensures { Pending (checks_of g.now.rows.plan) waiting.new × (waiting.new.top ≤ waiting.old.top + 192) }
{
    let lift = g.rows.plan.shape.lift;
    let j = bit / lift;
    let z = bit % lift;
    let mut from = 0;
    while let Some(i) = g.next_row(from, j) {
        push_check(&g.rows.plan, i, j, z, waiting);
        from = i + 1;
    }
}

// Looks at the checks of a filled bit, and at those of the bits that this fills. Returns how many bits were filled.
#[tactic(auto, using(crate::proofs::Steps::worked_then))]
fn follow(g: &Graph, bit: usize, word: &mut [u8]) -> usize
    requires { IsWord g.now.rows.plan word.old × (bit < bits_in g.now.rows.plan) }
    ensures { Worked (graph g.now.rows.plan) word.old word.new result }
{
    let mut waiting = Stack::new();
    push_checks(g, bit, &mut waiting);
    let mut filled = 0;
    while let Some(c) = waiting.pop() {
        if let Some(b) = fill_check(&g.rows, c, word) {
            filled += 1;
            push_checks(g, b, &mut waiting);
        }
    }
    filled
}

// Fills what follows from check c. Returns how many bits were filled.
#[tactic(auto, using(crate::proofs::Steps::passed_skip, crate::proofs::Steps::passed_filled, crate::proofs::Steps::worked_then))]
fn settle(g: &Graph, c: usize, word: &mut [u8]) -> usize
    requires { IsWord g.now.rows.plan word.old × (c < checks_of g.now.rows.plan) }
    ensures { Passed (graph g.now.rows.plan) c (c + 1) word.old word.new result }
{
    match fill_check(&g.rows, c, word) {
        Some(b) => 1 + follow(g, b, word),
        None => 0,
    }
}

// One pass over all checks. Returns how many bits were filled.
fn pass(g: &Graph, word: &mut [u8]) -> usize
    requires { IsWord g.now.rows.plan word.old }
    ensures { Passed (graph g.now.rows.plan) 0 (checks_of g.now.rows.plan) word.old word.new result }
{
    let mut filled = 0;
    let shape = g.rows.plan.shape;
    for c in 0..shape.rows * shape.lift {
        filled += settle(g, c, word);
    }
    filled
}

// Passes until one fills nothing. Returns how many bits were filled.
#[tactic(auto, using(crate::proofs::Steps::peeled_then), unfolding(exponent::specs::Tanner::tanner))]
pub fn peel(g: &Graph, word: &mut [u8]) -> usize
    requires { IsWord g.now.rows.plan word.old }
    ensures { Peeled (graph g.now.rows.plan) word.old word.new result 0 }
{
    let mut filled = 0;
    let mut n = 1;
    // Stays: it runs until a pass fills nothing.
    while 0 < n {
        n = pass(g, word);
        filled += n;
    }
    filled
}

// Whether some check without an erasure is odd.
#[tactic(auto, using(graph::proofs::Peeling::any_zero, graph::proofs::Peeling::any_more), unfolding(graph::specs::Filling::clash, graph::specs::Filling::odd_check, graph::specs::Erasure::parity, exponent::specs::Tanner::tanner))]
pub fn has_clash(rows: &Rows, word: &[u8]) -> bool
    requires { IsWord rows.now.plan word.now }
    ensures { result ≡ clash (graph rows.now.plan) word.now }
{
    let shape = rows.plan.shape;
    for c in 0..shape.rows * shape.lift {
        let s = scan::scan_check(rows, c, word);
        if s.erased == 0 && s.sum % 2 == 1 {
            return true;
        }
    }
    false
}
