ghost use Rattle.std.specs.Prelude.{◌≢◌, ◌+◌, ◌%◌, ◌<◌};
ghost use Rattle.exponent.specs.Plan.{block_at};
ghost use Rattle.encoding.specs.Encoded.{bit_for, data_sum};
ghost use Rattle.encoding.specs.Work.{Bits, Apart, AddedRun, Columns, Added, column, Ready};

use exponent::block::Block;
use exponent::plan::Plan;
use exponent::position;

// Adds, modulo 2, n bytes of a word to n others.
fn add_run(word: &mut [u8], to: usize, from: usize, n: usize)
    requires { Apart word.old to from n × Bits word.old }
    ensures { AddedRun to from n word.old word.new }
{
    for k in 0..n {
        word[to + k] = (word[to + k] + word[from + k]) % 2;
    }
}

// Adds column `from`, turned by e, to column `to`: two runs, up to the end of the column and from its start on.
pub fn add_column(word: &mut [u8], lift: usize, to: usize, from: usize, e: usize)
    requires { Columns lift word.old to from × (e < lift) }
    ensures { Added lift to (λ z. column lift word.old from ((z + e) % lift)) word.old word.new }
{
    let there = to * lift;
    let here = from * lift;
    let cut = lift - e;
    add_run(word, there, here + e, cut);
    add_run(word, there + cut, here, e);
}

// Adds to column i what the checks of row i have in column j, for bit z that of check z + turn.
pub fn add_block(plan: &Plan, i: usize, j: usize, turn: usize, word: &mut [u8])
    requires { Ready plan.now.entries.now plan.now.shape word.old × (i < plan.now.shape.rows) × (j < plan.now.shape.cols) × (i ≢ j) × (turn < plan.now.shape.lift) }
    ensures { Added plan.now.shape.lift i (λ z. bit_for plan.now.shape.lift ((z + turn) % plan.now.shape.lift) (column plan.now.shape.lift word.old j) (block_at plan.now.entries.now plan.now.shape.cols plan.now.shape.lift i j)) word.old word.new }
{
    let lift = plan.shape.lift;
    if let Block::Shift(e) = plan.block_at(i, j) {
        add_column(word, lift, i, j, position::wrap(e + turn, lift));
    }
}

// Adds to column i what the checks of row i have in the data columns.
pub fn add_data(plan: &Plan, i: usize, turn: usize, word: &mut [u8])
    requires { Ready plan.now.entries.now plan.now.shape word.old × (i < plan.now.shape.rows) × (turn < plan.now.shape.lift) }
    ensures { Added plan.now.shape.lift i (λ z. data_sum plan.now.entries.now plan.now.shape.rows plan.now.shape.cols plan.now.shape.lift (column plan.now.shape.lift word.old) i ((z + turn) % plan.now.shape.lift)) word.old word.new }
{
    for j in plan.shape.rows..plan.shape.cols {
        add_block(plan, i, j, turn, word);
    }
}
