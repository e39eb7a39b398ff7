// The syndrome check of a word (document 01: frame check), and what it shares with the decoder: a word's bytes and a check's bits.
#![tactic(auto)]

ghost use Rattle.std.specs.Prelude.{◌≡◌, ◌*◌, length, IfOk};
ghost use Rattle.std.specs.Result.{result_err};
ghost use Rattle.refusal.specs.Lowest.{lowest};
ghost use Rattle.exponent.specs.Plan.{shape_of};
ghost use Rattle.exponent.specs.Graphs.{graph, checks_of};
ghost use Rattle.syndrome.specs.Scan.{IsWord};
ghost use Rattle.syndrome.specs.Word.{word_rules};
ghost use Rattle.syndrome.specs.Check.{check_rules, syndrome_of, lowest_odd, found};

pub mod byte; // byte.rt: what a byte of a word says
mod lanes; // lanes.rt: eight bytes as one number
pub mod scan; // scan.rt: the bits of one check

use byte::Symbol;
use exponent::plan::Plan;
use index::rows::Rows;
use refusal::Refusal;

// The plan, where it and a word for it are valid, or the lowest of refusals 1 to 6, 16 and 18 that applies.
#[tactic(auto, using(refusal::proofs::Lowest::lowest_refused, refusal::proofs::Lowest::lowest_accepted, crate::proofs::Rules::long), unfolding(crate::specs::Word::word_rules))]
pub fn validate_word<'a>(
    plan: &'a [i16],
    rows: usize,
    cols: usize,
    lift: usize,
    word: &[u8],
) -> Result<Plan<'a>, Refusal>
    ensures refusal { result_err result ≡ lowest (word_rules plan.entry.now rows cols lift word.now) }
    ensures plan { IfOk result (λ p. (p.entries ≡ plan.entry) × (p.shape ≡ shape_of rows cols lift) × (length word.now ≡ cols * lift)) }
{
    let plan = Plan::new(plan, rows, cols, lift)?;
    byte::validate_bytes(word, cols * lift)?;
    Ok(plan)
}

// The same for a word that is to have no erasure: refusal 19 besides.
#[tactic(auto, using(refusal::proofs::Place::position_some, refusal::proofs::Place::position_none, refusal::proofs::Lowest::lowest_refused, refusal::proofs::Lowest::lowest_accepted, std::proofs::lemmas::Result::err_from_is_err_and), unfolding(crate::specs::Check::check_rules, refusal::specs::Lowest::lowest))]
pub fn validate_known<'a>(
    plan: &'a [i16],
    rows: usize,
    cols: usize,
    lift: usize,
    word: &[u8],
) -> Result<Plan<'a>, Refusal>
    ensures refusal { result_err result ≡ lowest (check_rules plan.entry.now rows cols lift word.now) }
    ensures plan { IfOk result (λ p. (p.entries ≡ plan.entry) × (p.shape ≡ shape_of rows cols lift) × (length word.now ≡ cols * lift)) }
{
    let plan = validate_word(plan, rows, cols, lift, word)?;
    match byte::first(Symbol::Erased, word) {
        Some(place) => Err(Refusal::Erasure(place)),
        None => Ok(plan),
    }
}

// The lowest odd check of a word without erasures, if there is one.
#[tactic(auto, using(crate::proofs::Odds::odd_found), unfolding(graph::specs::Erasure::parity, exponent::specs::Tanner::tanner))]
fn lowest_odd(rows: &Rows, word: &[u8]) -> Option<usize>
    requires { IsWord rows.now.plan word.now }
    ensures { result ≡ found (checks_of rows.now.plan) (lowest_odd (graph rows.now.plan) word.now) }
{
    let shape = rows.plan.shape;
    for c in 0..shape.rows * shape.lift {
        if scan::scan_check(rows, c, word).sum % 2 == 1 {
            return Some(c);
        }
    }
    None
}

// The lowest odd check of a valid word without erasures, if there is one.
fn check_valid(plan: &Plan, word: &[u8]) -> Option<usize>
    requires { IsWord plan.now word.now }
    ensures { result ≡ found (checks_of plan.now) (lowest_odd (graph plan.now) word.now) }
{
    let mut along = [0u16; index::PLACES];
    let rows = Rows::new(*plan, &mut along);
    lowest_odd(&rows, word)
}

// Checks a word: all checks even, or the lowest odd one.
#[tactic(auto, unfolding(crate::specs::Check::syndrome_of))]
pub fn check(
    plan: &[i16],
    rows: usize,
    cols: usize,
    lift: usize,
    word: &[u8],
) -> Result<Option<usize>, Refusal>
    ensures { result ≡ syndrome_of plan.now rows cols lift word.now }
{
    let plan = validate_known(plan, rows, cols, lift, word)?;
    Ok(check_valid(&plan, word))
}
