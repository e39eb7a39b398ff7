ghost use Rattle.std.specs.Prelude.{◌≡◌, ◌≢◌, ◌<◌, MatchOption, length};
ghost use Rattle.bidiagonal.specs.Shape.{third_of, third_shift};
ghost use Rattle.bidiagonal.specs.Work.{column_shifts};

use exponent::block::Block;
use exponent::plan::Plan;

// The shifts of column m − 1, if there are three.
#[tactic(auto, using(crate::proofs::Columns::four_shifts))]
fn shifts(plan: &Plan) -> Option<[usize; 3]>
    requires { plan.now.shape.rows < plan.now.shape.cols }
    ensures { MatchOption result (length (column_shifts plan.now.entries.now plan.now.shape plan.now.shape.rows) ≢ 3) (λ three. three ≡ column_shifts plan.now.entries.now plan.now.shape plan.now.shape.rows) }
{
    let last = plan.shape.rows - 1;
    let mut three = [0; 3];
    let mut n = 0;
    for i in 0..plan.shape.rows {
        if let Block::Shift(e) = plan.block_at(i, last) {
            if n == 3 {
                return None;
            }
            three[n] = e;
            n += 1;
        }
    }
    if n == 3 { Some(three) } else { None }
}

// Of three shifts, at least two of them equal, the third.
fn third_of(a: usize, b: usize, c: usize) -> Option<usize>
    ensures { result ≡ third_of a b c }
{
    if a == b {
        Some(c)
    } else if a == c {
        Some(b)
    } else if b == c {
        Some(a)
    } else {
        None
    }
}

// The third shift of column m − 1, where it has three, at least two of them equal.
#[tactic(auto, using(crate::proofs::Columns::third_three, crate::proofs::Columns::third_none), unfolding(crate::specs::Shape::third_shift))]
pub fn third(plan: &Plan) -> Option<usize>
    requires { plan.now.shape.rows < plan.now.shape.cols }
    ensures { result ≡ third_shift plan.now.entries.now plan.now.shape.rows plan.now.shape.cols plan.now.shape.lift }
{
    let [a, b, c] = shifts(plan)?;
    third_of(a, b, c)
}
