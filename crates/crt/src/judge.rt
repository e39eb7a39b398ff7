ghost use Rattle.std.specs.Prelude.{◌≡◌, not, length};
ghost use Rattle.refusal.specs.Answer.{ok_unless};
ghost use Rattle.std.specs.Bool.{beq};
ghost use Rattle.std.specs.Result.{result_err};
ghost use Rattle.refusal.specs.Lowest.{lowest, lower};
ghost use Rattle.graph.specs.Erasure.{any};
ghost use Rattle.exponent.specs.Plan.{filled, entry_at};
ghost use Rattle.crt.specs.Join.{both_refusal, differ, join_rules, join_refusal};
ghost use Rattle.crt.specs.Work.{shaped, AsProduct, Both, Judges};

use crate::unit;
use exponent::{Shape, block};
use refusal::Refusal;

// Of two judgements the refusal with the lower number; where the numbers are the same, the first.
fn lower(a: Result<(), Refusal>, b: Result<(), Refusal>) -> Result<(), Refusal>
    ensures { result ≡ ok_unless (lower (result_err a) (result_err b)) }
{
    match (a, b) {
        (Err(x), Err(y)) if y.number() < x.number() => b,
        (Err(_), _) => a,
        (Ok(()), _) => b,
    }
}

// The product of two lifts; where one is too large already, that one, which is refused as the product is.
#[tactic(auto, using(crate::proofs::Judging::first_large, crate::proofs::Judging::second_large))]
fn product(p: usize, q: usize) -> usize
    ensures { AsProduct p q result }
{
    if 4096 < p {
        p
    } else if 4096 < q {
        q
    } else {
        p * q
    }
}

// Judges both plans and the joined size: refusals 1 to 6.
fn judge_both(first: &[i16], s: Shape, second: &[i16], t: Shape) -> Result<(), Refusal>
    ensures { result ≡ ok_unless (both_refusal (shaped first.now s) (shaped second.now t)) }
{
    let a = exponent::validate(first, s.rows, s.cols, s.lift);
    let b = exponent::validate(second, t.rows, t.cols, t.lift);
    let c = exponent::validate(first, s.rows, s.cols, product(s.lift, t.lift));
    lower(lower(a, b), c)
}

// Whether some block is filled in one of two plans of the same length, and not in the other.
fn blocks_differ(first: &[i16], p: usize, second: &[i16], q: usize) -> bool
    requires { length first.now ≡ length second.now }
    ensures { result ≡ any (length first.now) (λ place. not (beq (filled (entry_at first.now p place)) (filled (entry_at second.now q place)))) }
{
    first.iter().zip(second).any(|(&a, &b)| block::entry(a, p).is_filled()
        != block::entry(b, q).is_filled())
}

// Whether two valid plans differ in rows, columns or empty blocks.
#[tactic(auto, unfolding(crate::specs::Join::differ))]
fn plans_differ(first: &[i16], s: Shape, second: &[i16], t: Shape) -> bool
    requires { Both (shaped first.now s) (shaped second.now t) }
    ensures { result ≡ differ (shaped first.now s) (shaped second.now t) }
{
    s.rows != t.rows || s.cols != t.cols || blocks_differ(first, s.lift, second, t.lift)
}

// Judges two valid plans and the length of the joined place: refusals 27 to 29, or the unit of the two lifts.
fn judge_valid(
    first: &[i16],
    s: Shape,
    second: &[i16],
    t: Shape,
    room: usize,
) -> Result<usize, Refusal>
    requires { Both (shaped first.now s) (shaped second.now t) }
    ensures { Judges (lowest (join_rules (shaped first.now s) (shaped second.now t) room)) s.lift t.lift result }
{
    let Some(unit) = unit::find(s.lift, t.lift) else {
        return Err(Refusal::SharedDivisor);
    };
    if plans_differ(first, s, second, t) {
        return Err(Refusal::PlansDiffer);
    }
    if room != first.len() {
        return Err(Refusal::JoinedPlace);
    }
    Ok(unit)
}

// Judges what is handed in: the lowest refusal that applies, or the unit of the two lifts.
pub fn judge(
    first: &[i16],
    s: Shape,
    second: &[i16],
    t: Shape,
    room: usize,
) -> Result<usize, Refusal>
    ensures { Judges (join_refusal (shaped first.now s) (shaped second.now t) room) s.lift t.lift result }
{
    judge_both(first, s, second, t)?;
    judge_valid(first, s, second, t, room)
}
