// The encoder (document 02, slip 10): the codeword (code frame) of given data bits, for plans of the bi-diagonal shape.
#![tactic(auto)]

ghost use Rattle.std.specs.Prelude.{◌≡◌, length};
ghost use Rattle.refusal.specs.Answer.{ok_unless};
ghost use Rattle.refusal.specs.Lowest.{lowest};
ghost use Rattle.refusal.specs.Lent.{lent};
ghost use Rattle.encoding.specs.Encode.{bad_data, coding_rules, word_of, encode_refusal, after_encode};
ghost use Rattle.encoding.specs.Work.{Greatest};

mod columns; // columns.rt: columns of a word added to another
mod parity; // parity.rt: the parity bits, column by column

use exponent::plan::Plan;
use refusal::Refusal;

// The greatest byte, or 0. No branch depends on a byte.
#[tactic(auto, using(crate::proofs::Laying::greatest_more))]
fn greatest(info: &[u8]) -> u8
    ensures { Greatest (length info.now) info.now result }
{
    let mut most = 0;
    for x in info {
        most = most.max(*x);
    }
    most
}

// Whether the data are not n bytes, or have a byte above 1.
#[tactic(auto, using(crate::proofs::Rules::bad_byte))]
fn is_bad(info: &[u8], n: usize) -> bool
    ensures { result ≡ bad_data n info.now }
{
    info.len() != n || 1 < greatest(info)
}

// Encodes for a plan: refusals 16, 30 and 31, or the codeword.
#[tactic(auto, using(crate::proofs::Rules::refused_16, crate::proofs::Rules::refused_30, crate::proofs::Rules::refused_31, crate::proofs::Rules::none_refused, bidiagonal::proofs::Judging::many))]
fn encode_valid(plan: &Plan, info: &[u8], word: &mut [u8]) -> Result<(), Refusal>
    ensures answer { result ≡ ok_unless (lowest (coding_rules plan.now.entries.now plan.now.shape.rows plan.now.shape.cols plan.now.shape.lift info.now (length word.old))) }
    ensures word { word.new ≡ lent (lowest (coding_rules plan.now.entries.now plan.now.shape.rows plan.now.shape.cols plan.now.shape.lift info.now (length word.old))) (word_of plan.now.entries.now plan.now.shape.rows plan.now.shape.cols plan.now.shape.lift info.now) word.old }
{
    let shape = plan.shape;
    if word.len() != shape.cols * shape.lift {
        return Err(Refusal::WordLength);
    }
    let Some(third) = bidiagonal::judge(plan) else {
        return Err(Refusal::NotBidiagonal);
    };
    if is_bad(info, (shape.cols - shape.rows) * shape.lift) {
        return Err(Refusal::DataBits);
    }
    parity::write(plan, third, info, word);
    Ok(())
}

// Writes the only codeword with the given data bits into the lent word, or turns the caller away and leaves the word as it is. What the
// word holds before is not read.
#[tactic(auto, using(refusal::proofs::Lowest::lowest_accepted, refusal::proofs::Lowest::lowest_refused), unfolding(crate::specs::Encode::encode_rules))]
pub fn encode(
    plan: &[i16],
    rows: usize,
    cols: usize,
    lift: usize,
    info: &[u8],
    word: &mut [u8],
) -> Result<(), Refusal>
    ensures answer { result ≡ ok_unless (encode_refusal plan.now rows cols lift info.now word.old) }
    ensures word { word.new ≡ after_encode plan.now rows cols lift info.now word.old }
{
    let plan = Plan::new(plan, rows, cols, lift)?;
    encode_valid(&plan, info, word)
}
