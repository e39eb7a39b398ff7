// The bi-diagonal shape of a plan (document 02, slip 10; source 003, formula (5)), by which data are encoded without elimination.
#![tactic(auto)]

ghost use Rattle.bidiagonal.specs.Work.{Judged};

use exponent::plan::Plan;

mod front; // front.rt: the columns before m − 1, which hold the two diagonals
mod last; // last.rt: column m − 1, and the third of its shifts

// Judges a plan: the third shift of its column m − 1, where it has the shape.
#[tactic(auto, unfolding(crate::specs::Shape::not_bidiagonal))]
pub fn judge(plan: &Plan) -> Option<usize>
    ensures { Judged plan.now.entries.now plan.now.shape result }
{
    let shape = plan.shape;
    if shape.rows < 3 || shape.cols <= shape.rows || front::some_misplaced(plan) {
        None
    } else {
        last::third(plan)
    }
}
