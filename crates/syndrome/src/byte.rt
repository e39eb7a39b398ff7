ghost use Rattle.std.specs.Prelude.{◌≡◌, ◌<◌, ◌^◌, sum_by};
ghost use Rattle.std.specs.List.{position};
ghost use Rattle.refusal.specs.Answer.{ok_unless};
ghost use Rattle.refusal.specs.Lowest.{lowest};
ghost use Rattle.graph.specs.Filling.{erasures};
ghost use Rattle.syndrome.specs.Word.{symbol_of, is_kind, byte_rules};

use super::lanes;
use refusal::Refusal;

// A byte of a word (document 01: frame byte).
#[derive(Clone, Copy, Debug, PartialEq, Eq)]
pub enum Symbol {
    Known,
    Erased,
    Other,
}

// Sorts a byte: 0 or 1 known, 2 an erasure, 3 to 255 refused.
pub fn sort(x: u8) -> Symbol
    ensures { result ≡ symbol_of x }
{
    match x {
        0..=1 => Symbol::Known,
        2 => Symbol::Erased,
        3..=255 => Symbol::Other,
    }
}

// The place of the first byte of a kind, if there is one.
pub fn first(kind: Symbol, word: &[u8]) -> Option<usize>
    ensures { result ≡ position (λ x. is_kind kind (symbol_of x)) word.now }
{
    word.iter().position(|&x| kind == sort(x))
}

// How many bytes are erasures, by one byte after the other.
#[tactic(auto, using(crate::proofs::Symbols::erasures_counted))]
fn count_bytes(word: &[u8]) -> usize
    ensures { result ≡ erasures word.now }
{
    word.iter().filter(|&&x| x == 2).count()
}

// The same of bytes that come in eights.
fn count_eights(eights: &[[u8; 8]]) -> usize
    requires { sum_by erasures eights.now < 2 ^ 64 }
    ensures { result ≡ sum_by erasures eights.now }
{
    eights.iter().map(lanes::count).sum()
}

// How many bytes are erasures, for any list of bytes: the last few by themselves.
#[tactic(auto, using(crate::proofs::Symbols::erasures_chunked, crate::proofs::Symbols::erasures_le))]
pub fn count_erasures(word: &[u8]) -> usize
    ensures { result ≡ erasures word.now }
{
    let (eights, rest) = word.as_chunks::<8>();
    count_eights(eights) + count_bytes(rest)
}

// Judges the bytes of a word that is to have n of them: refusals 16 and 18.
#[tactic(auto, using(refusal::proofs::Place::position_some, refusal::proofs::Place::position_none), unfolding(crate::specs::Word::byte_rules, refusal::specs::Lowest::lowest))]
pub fn validate_bytes(word: &[u8], n: usize) -> Result<(), Refusal>
    ensures { result ≡ ok_unless (lowest (byte_rules n word.now)) }
{
    if word.len() != n {
        return Err(Refusal::WordLength);
    }
    match first(Symbol::Other, word) {
        Some(place) => Err(Refusal::Byte(place)),
        None => Ok(()),
    }
}
