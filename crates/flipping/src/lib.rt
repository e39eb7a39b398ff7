// One round of bit flipping (document 02, slip 12: turning bits), by Gallager's hard rule.
#![tactic(auto)]

ghost use Rattle.std.specs.Prelude.{◌≡◌};
ghost use Rattle.exponent.specs.Graphs.{graph};
ghost use Rattle.graph.specs.Flipping.{flipped_word, flipped_count};
ghost use Rattle.flipping.specs.Flip.{other_weight, flip_answer, flip_word};
ghost use Rattle.flipping.specs.Work.{Given};

mod marks; // marks.rt: odd checks, marked in the word's own bytes

use exponent::plan::Plan;
use index::rows::Rows;
use refusal::Refusal;
use weights::Side;

// Whether a column has not exactly three filled blocks.
fn has_other_weight(plan: &Plan) -> bool
    ensures { result ≡ other_weight plan.now.entries.now plan.now.shape.rows plan.now.shape.cols plan.now.shape.lift }
{
    let shape = plan.shape;
    (0..shape.cols).any(|j| weights::weight(plan.entries, shape, Side::Bits, j) != 3)
}

// A round over a word of bits. Returns how many were turned.
fn flip_valid(plan: &Plan, word: &mut [u8]) -> usize
    requires { Given plan.now.entries.now plan.now.shape word.old }
    ensures count { result ≡ flipped_count (graph plan.now) word.old }
    ensures word { word.new ≡ flipped_word (graph plan.now) word.old }
{
    let mut along = [0u16; index::PLACES];
    let rows = Rows::new(*plan, &mut along);
    marks::mark_odd(&rows, word);
    marks::flip_marked(word)
}

// Turns every bit of which two or more checks are odd, all judged on the word before the round, and answers how many; or turns the caller
// away and leaves the word as it is.
#[tactic(auto, using(refusal::proofs::Lowest::lowest_refused, refusal::proofs::Lowest::lowest_accepted), unfolding(crate::specs::Flip::flip_answer, crate::specs::Flip::flip_word, crate::specs::Flip::flip_rules, refusal::specs::Lowest::lowest))]
pub fn flip(
    plan: &[i16],
    rows: usize,
    cols: usize,
    lift: usize,
    word: &mut [u8],
) -> Result<usize, Refusal>
    ensures answer { result ≡ flip_answer plan.now rows cols lift word.old }
    ensures word { word.new ≡ flip_word plan.now rows cols lift word.old }
{
    let plan = syndrome::validate_known(plan, rows, cols, lift, word)?;
    if has_other_weight(&plan) {
        return Err(Refusal::ColumnWeight);
    }
    Ok(flip_valid(&plan, word))
}
