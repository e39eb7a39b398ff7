ghost use Rattle.std.specs.Prelude.{◌≡◌, ◌+◌, ◌*◌, ◌<◌, ◌≤◌, ◌++◌, length, replicate};
ghost use Rattle.encoding.specs.Encoded.{encoded_word};
ghost use Rattle.encoding.specs.Work.{column, Ready, Laid, Settled, FrontSettled, Fits};

use crate::columns;
use exponent::plan::Plan;
use exponent::position;

// Lays the data bits behind parity bits that are 0.
fn lay(plan: &Plan, info: &[u8], word: &mut [u8])
    requires { plan.now.shape.rows * plan.now.shape.lift + length info.now ≡ length word.old }
    ensures { word.new ≡ replicate (plan.now.shape.rows * plan.now.shape.lift) 0 ++ info.now }
{
    let start = plan.shape.rows * plan.shape.lift;
    word[..start].fill(0);
    // Stays: by the slice's `copy_from_slice` the archive for C would ask for `memmove`.
    for (k, x) in info.iter().enumerate() {
        word[start + k] = *x;
    }
}

// Sums the data bits of each row's checks into the row's own column, and those of all rows into column m − 1, which is then settled.
fn sum_rows(plan: &Plan, third: usize, word: &mut [u8])
    requires { Laid plan.now.entries.now plan.now.shape word.old × (third < plan.now.shape.lift) }
    ensures { Settled plan.now.entries.now plan.now.shape third (column plan.now.shape.lift word.old) 0 word.new }
{
    let last = plan.shape.rows - 1;
    let lift = plan.shape.lift;
    let turn = position::wrap(lift - third, lift);
    for i in 0..last {
        columns::add_data(plan, i, 0, word);
        columns::add_column(word, lift, last, i, turn);
    }
    columns::add_data(plan, last, turn, word);
}

// Settles the columns before m − 1: each by the column before it, its row's data bits and its row's bit of column m − 1.
fn settle_front(plan: &Plan, word: &mut [u8])
    requires { Ready plan.now.entries.now plan.now.shape word.old × (2 ≤ plan.now.shape.rows) }
    ensures { FrontSettled plan.now.entries.now plan.now.shape word.old word.new }
{
    let last = plan.shape.rows - 1;
    let lift = plan.shape.lift;
    columns::add_block(plan, 0, last, 0, word);
    for k in 1..last {
        columns::add_column(word, lift, k, k - 1, 0);
        columns::add_block(plan, k, last, 0, word);
    }
}

// Writes the codeword of the data bits. What the word holds before is not read.
pub fn write(plan: &Plan, third: usize, info: &[u8], word: &mut [u8])
    requires { Fits plan.now.entries.now plan.now.shape third info.now word.old × (2 ≤ plan.now.shape.rows) }
    ensures { word.new ≡ encoded_word plan.now.entries.now plan.now.shape.rows plan.now.shape.cols plan.now.shape.lift third info.now }
{
    lay(plan, info, word);
    sum_rows(plan, third, word);
    settle_front(plan, word);
}
