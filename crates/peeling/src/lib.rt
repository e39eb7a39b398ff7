// The peeling decoder (document 01: filler): fills erasures of a word by the parity checks of a plan. And its preview (document 02,
// slip 5).
#![tactic(auto)]

ghost use Rattle.std.specs.Prelude.{◌≡◌};
ghost use Rattle.exponent.specs.Graphs.{graph};
ghost use Rattle.peeling.specs.Fill.{Fillable, filling, filled_or, Fills, Previews};

use exponent::plan::Plan;
use index::rows::Graph;
use refusal::Refusal;
use syndrome::byte;
use worklist::marks;

// The most bits that a valid plan has (refusal 4), so the most bytes of a word for one.
const BITS: usize = 65536;

// How many of a word's erasures were filled, or would be, and how many are left.
#[derive(Clone, Copy, Debug, PartialEq, Eq)]
pub struct Filling {
    pub filled: usize,
    pub left: usize,
}

// Fills a word of bytes 0, 1 and 2.
fn fill_valid(plan: &Plan, word: &mut [u8]) -> Result<Filling, Refusal>
    requires { Fillable plan.now word.old }
    ensures { (result ≡ filling (graph plan.now) word.old) × (word.new ≡ filled_or (graph plan.now) word.old) }
{
    let mut down = [0u16; index::PLACES];
    let mut along = [0u16; index::PLACES];
    let graph = Graph::new(*plan, &mut down, &mut along);
    let filled = worklist::peel(&graph, word);
    if worklist::has_clash(&graph.rows, word) {
        marks::unmark_all(false, word);
        return Err(Refusal::NoSolution);
    }
    marks::unmark_all(true, word);
    let left = byte::count_erasures(word);
    Ok(Filling { filled, left })
}

// Fills the erasures of a word, as far as the plan's checks determine them.
#[tactic(auto, using(crate::proofs::Rules::word_refused))]
pub fn fill(
    plan: &[i16],
    rows: usize,
    cols: usize,
    lift: usize,
    word: &mut [u8],
) -> Result<Filling, Refusal>
    ensures { Fills plan.now rows cols lift word.old result word.new }
{
    let plan = syndrome::validate_word(plan, rows, cols, lift, word)?;
    fill_valid(&plan, word)
}

// What filling a word of bytes 0, 1 and 2 would report: a copy of it is filled.
fn preview_valid(plan: &Plan, word: &[u8]) -> Result<Filling, Refusal>
    requires { Fillable plan.now word.now }
    ensures { result ≡ filling (graph plan.now) word.now }
{
    let mut place = [0u8; BITS];
    let copy = &mut place[..word.len()];
    copy.copy_from_slice(word);
    fill_valid(plan, copy)
}

// Reports what filling a word would report, and only reads the word.
#[tactic(auto, using(crate::proofs::Rules::word_refused, crate::proofs::Rules::fillable, crate::proofs::Rules::valid_filled))]
pub fn preview(
    plan: &[i16],
    rows: usize,
    cols: usize,
    lift: usize,
    word: &[u8],
) -> Result<Filling, Refusal>
    ensures { Previews plan.now rows cols lift word.now result }
{
    let plan = syndrome::validate_word(plan, rows, cols, lift, word)?;
    preview_valid(&plan, word)
}
