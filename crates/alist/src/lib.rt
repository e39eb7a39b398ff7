// The alist text of a plan (document 01, "alist text"): a writer into a lent place, and a comparer of a lent text.
#![tactic(auto)]

ghost use Rattle.std.specs.Prelude.{◌≡◌, ℕ, List};
ghost use Rattle.std.specs.Fn.{FnOnceReturnsAtPair};
ghost use Rattle.refusal.specs.Answer.{ok_unless};
ghost use Rattle.refusal.specs.Lowest.{lowest};
ghost use Rattle.exponent.specs.Limits.{WellFormed};
ghost use Rattle.exponent.specs.Tanner.{graph_of};
ghost use Rattle.comparer.specs.Verdict.{departs};
ghost use Rattle.weights.specs.Weights.{Weighed};
ghost use Rattle.alist.specs.Calls.{alist_text, place_rules, write_rules, token_rules, text_rules, compare_rules};
ghost use Rattle.alist.specs.Steps.{PutBy};

mod put; // put.rt: lines and the whole text, written where there is room

use exponent::Shape;
use refusal::Refusal;

// Takes a step with the weights of a valid plan, which are counted here: the lent lists are wrong.
fn with_weights<R, F: FnOnce(&[u16], &[u16]) -> R>(plan: &[i16], s: Shape, step: F) -> R
    requires formed { WellFormed plan.now s.rows s.cols s.lift }
    requires taken { (byrow bycol : _) → Weighed plan.now s byrow.now bycol.now → F.pre step byrow bycol }
    ensures { (byrow : List ℕ) × (bycol : List ℕ) × Weighed plan.now s byrow bycol × FnOnceReturnsAtPair F.FnOnce step byrow bycol result }
{
    let mut rows = [0u16; weights::ROWS];
    let mut cols = [0u16; weights::COLS];
    let byrow = &mut rows[..s.rows];
    let bycol = &mut cols[..s.cols];
    weights::fill(plan, s, byrow, bycol);
    step(byrow, bycol)
}

// Writes the alist of a valid plan, unless the place is too short or a list of weights is wrong: then nothing is written.
#[tactic(auto, using(weights::proofs::Weights::right_exactly), unfolding(refusal::specs::Lowest::lowest))]
fn write_valid(
    plan: &[i16],
    s: Shape,
    byrow: &[u16],
    bycol: &[u16],
    text: &mut [u8],
) -> Result<usize, Refusal>
    requires { WellFormed plan.now s.rows s.cols s.lift }
    ensures { PutBy (place_rules plan.now s byrow.now bycol.now text.old)
        (alist_text plan.now s.rows s.cols s.lift) text.old result text.new }
{
    if weights::are_right(plan, s, byrow, bycol) {
        return put::write_weighed(plan, s, byrow, bycol, text);
    }
    let need = with_weights(
        plan,
        s,
        |byrow, bycol| put::length_weighed(plan, s, byrow, bycol),
    );
    if text.len() < need {
        Err(Refusal::TextPlace(need))
    } else {
        Err(Refusal::Weights)
    }
}

// Writes the alist of a plan into a lent place; bytes past the text stay, and nothing changes on a refusal.
#[tactic(auto, using(crate::proofs::Answers::still_refused, crate::proofs::Answers::then_others, crate::proofs::Answers::valid_formed), unfolding(crate::specs::Calls::write_rules))]
pub fn write(
    plan: &[i16],
    rows: usize,
    cols: usize,
    lift: usize,
    row_weights: &[u16],
    col_weights: &[u16],
    text: &mut [u8],
) -> Result<usize, Refusal>
    ensures { PutBy (write_rules plan.now rows cols lift row_weights.now col_weights.now text.old)
        (alist_text plan.now rows cols lift) text.old result text.new }
{
    exponent::validate(plan, rows, cols, lift)?;
    let s = Shape { rows, cols, lift };
    write_valid(plan, s, row_weights, col_weights, text)
}

// The comparison of a lent text with the alist of a valid plan with its lists of weights, in either form.
#[tactic(auto, unfolding(refusal::specs::Lowest::lowest))]
fn compare_weighed(
    plan: &[i16],
    s: Shape,
    byrow: &[u16],
    bycol: &[u16],
    text: &[u8],
) -> Result<(), Refusal>
    requires { WellFormed plan.now s.rows s.cols s.lift × Weighed plan.now s byrow.now bycol.now }
    ensures { result ≡ ok_unless (lowest (token_rules (departs text.now (graph_of plan.now s)))) }
{
    comparer::compare(text, plan, byrow, bycol, s).map_err(Refusal::Token)
}

// The comparison of a lent text with the alist of a valid plan; where that agrees, wrong lists of weights are refused.
#[tactic(auto, using(weights::proofs::Weights::right_exactly), unfolding(refusal::specs::Lowest::lowest))]
fn compare_valid(
    plan: &[i16],
    s: Shape,
    byrow: &[u16],
    bycol: &[u16],
    text: &[u8],
) -> Result<(), Refusal>
    requires { WellFormed plan.now s.rows s.cols s.lift }
    ensures { result ≡ ok_unless (lowest (text_rules plan.now s byrow.now bycol.now text.now)) }
{
    if weights::are_right(plan, s, byrow, bycol) {
        return compare_weighed(plan, s, byrow, bycol, text);
    }
    with_weights(
        plan,
        s,
        |byrow, bycol| compare_weighed(plan, s, byrow, bycol, text),
    )?;
    Err(Refusal::Weights)
}

// Compares a lent text with the alist of a plan, in either form.
#[tactic(auto, using(crate::proofs::Answers::still_refused, crate::proofs::Answers::then_others, crate::proofs::Answers::valid_formed), unfolding(crate::specs::Calls::compare_rules))]
pub fn compare(
    plan: &[i16],
    rows: usize,
    cols: usize,
    lift: usize,
    row_weights: &[u16],
    col_weights: &[u16],
    text: &[u8],
) -> Result<(), Refusal>
    ensures { result ≡ ok_unless (lowest (compare_rules plan.now rows cols lift row_weights.now col_weights.now text.now)) }
{
    exponent::validate(plan, rows, cols, lift)?;
    let s = Shape { rows, cols, lift };
    compare_valid(plan, s, row_weights, col_weights, text)
}
