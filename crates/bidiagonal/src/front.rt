ghost use Rattle.std.specs.Prelude.{◌≡◌, ◌-◌, ◌<◌};
ghost use Rattle.graph.specs.Erasure.{any};
ghost use Rattle.exponent.specs.Plan.{block_at};
ghost use Rattle.bidiagonal.specs.Shape.{misplaced, some_misplaced};

use exponent::block::Block;
use exponent::plan::Plan;

// Whether block b, in row i and column k, is another than the shape has there.
fn is_misplaced(i: usize, k: usize, b: Block) -> bool
    requires { k < 512 }
    ensures { result ≡ misplaced i k b }
{
    if i == k || i == k + 1 {
        b != Block::Shift(0)
    } else {
        b != Block::Zero
    }
}

// Whether a block of row i is misplaced.
#[tactic(auto, using(graph::proofs::Peeling::any_zero, graph::proofs::Peeling::any_more, graph::proofs::Peeling::any_some))]
fn misplaced_in(plan: &Plan, i: usize) -> bool
    requires { (i < plan.now.shape.rows) × (plan.now.shape.rows < plan.now.shape.cols) }
    ensures { result ≡ any (plan.now.shape.rows - 1) (λ k. misplaced i k (block_at plan.now.entries.now plan.now.shape.cols plan.now.shape.lift i k)) }
{
    for k in 0..plan.shape.rows - 1 {
        if is_misplaced(i, k, plan.block_at(i, k)) {
            return true;
        }
    }
    false
}

// Whether a block of the columns before m − 1 is misplaced.
#[tactic(auto, using(graph::proofs::Peeling::any_zero, graph::proofs::Peeling::any_more, graph::proofs::Peeling::any_some), unfolding(crate::specs::Shape::some_misplaced))]
pub fn some_misplaced(plan: &Plan) -> bool
    requires { plan.now.shape.rows < plan.now.shape.cols }
    ensures { result ≡ some_misplaced plan.now.entries.now plan.now.shape.rows plan.now.shape.cols plan.now.shape.lift }
{
    for i in 0..plan.shape.rows {
        if misplaced_in(plan, i) {
            return true;
        }
    }
    false
}
