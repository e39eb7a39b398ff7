// Two plans made one (document 02, slip 9; source 004, [6]: the combining of quasi-cyclic codes by the Chinese remainder theorem).
#![tactic(auto)]

ghost use Rattle.std.specs.Prelude.{◌≡◌, ◌*◌, length};
ghost use Rattle.refusal.specs.Answer.{outcome};
ghost use Rattle.crt.specs.Join.{sized, join_refusal, after_join};

mod unit; // unit.rt: the multiple of one size that leaves 1 by the other
mod judge; // judge.rt: refusals 1 to 6 of both plans and of the joined size, and 27 to 29
mod write; // write.rt: the joined plan, entry by entry

use exponent::Shape;
use refusal::Refusal;

// Writes the plan of lift P × Q whose voltages leave the remainders of the first plan by P and of the second by Q, and answers that
// lift; or turns the caller away and leaves the lent place as it is.
#[tactic(auto, using(crate::proofs::Judging::verdict_accepted, crate::proofs::Rules::joinable, crate::proofs::Rules::same_lengths, crate::proofs::Judging::lifts))]
pub fn join(
    first: &[i16],
    rows: usize,
    cols: usize,
    lift: usize,
    second: &[i16],
    rows2: usize,
    cols2: usize,
    lift2: usize,
    joined: &mut [i16],
) -> Result<usize, Refusal>
    ensures answer { result ≡ outcome (join_refusal (sized first.now rows cols lift) (sized second.now rows2 cols2 lift2) (length joined.old)) (lift * lift2) }
    ensures place { joined.new ≡ after_join (sized first.now rows cols lift) (sized second.now rows2 cols2 lift2) joined.old }
{
    let s = Shape { rows, cols, lift };
    let t = Shape {
        rows: rows2,
        cols: cols2,
        lift: lift2,
    };
    let unit = judge::judge(first, s, second, t, joined.len())?;
    write::write(first, lift, second, lift2, unit, joined);
    Ok(lift * lift2)
}
