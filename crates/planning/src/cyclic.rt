ghost use Rattle.std.specs.Prelude.{◌≡◌, length};
ghost use Rattle.std.proofs.lemmas.List.Edits.{sets};
ghost use Rattle.refusal.specs.Answer.{outcome};
ghost use Rattle.refusal.specs.Lowest.{lowest};
ghost use Rattle.refusal.specs.Lent.{lent};
ghost use Rattle.weights.specs.Weights.{held};
ghost use Rattle.table.specs.Build.{build_refusal, after_build, built_shape};
ghost use Rattle.weights.specs.declared.Side.TheVariants.{Bits, Checks};
ghost use Rattle.planning.specs.Output.{cyclic_rules, cyclic_plan, cyclic_shape, cyclic_weights};
ghost use Rattle.planning.specs.Steps.{side_of, table_in, Lists};

use crate::request::Request;
use exponent::{Shape, limits};
use refusal::Refusal;

// The largest order's table has this many entries.
const ENTRIES: usize = 49;

// The order, or 0 where it is not allowed: then nothing that is lent matters, and empty lists are lent.
// Stays: 0 and no Option, since the number is only the size of what is lent.
#[tactic(auto, unfolding(crate::specs::Steps::side_of))]
pub fn side(order: usize) -> usize
    ensures { result ≡ side_of order }
{
    if limits::outside(4, 7, order) {
        0
    } else {
        order
    }
}

// Makes the cyclic table, and builds its plan.
#[tactic(auto, unfolding(crate::specs::Steps::table_in))]
fn build_with(
    q: Request,
    square: &mut [i16],
    mask: &[u8],
    place: &mut [i16],
    byrow: &mut [u16],
    bycol: &mut [u16],
) -> Result<Shape, Refusal>
    ensures answer { result ≡ outcome (build_refusal q.order q.lift (table_in q.order square.old) mask.now (held place.old byrow.old bycol.old)) (built_shape q.order q.lift mask.now) }
    ensures plan { place.new ≡ (after_build q.order q.lift (table_in q.order square.old) mask.now (held place.old byrow.old bycol.old)).plan }
    ensures rows { byrow.new ≡ (after_build q.order q.lift (table_in q.order square.old) mask.now (held place.old byrow.old bycol.old)).rows }
    ensures cols { bycol.new ≡ (after_build q.order q.lift (table_in q.order square.old) mask.now (held place.old byrow.old bycol.old)).cols }
{
    // an order that is refused here is refused below, where a wrong lift comes first
    let _ = table::cyclic(q.order, square);
    table::build(q.order, q.lift, square, mask, place, byrow, bycol)
}

// Builds the cyclic plan with the full mask in the part of `plan` that it needs, or in the whole where that is shorter.
#[tactic(auto, using(crate::proofs::Plans::side_area, crate::proofs::Plans::side_plan, crate::proofs::Plans::lent_answer, crate::proofs::Plans::lent_plan, crate::proofs::Plans::lent_rows, crate::proofs::Plans::lent_cols))]
pub fn build(
    q: Request,
    plan: &mut [i16],
    byrow: &mut [u16],
    bycol: &mut [u16],
) -> Result<Shape, Refusal>
    requires { Lists (side_of q.order) byrow.old bycol.old }
    ensures answer { result ≡ outcome (lowest (cyclic_rules q (length plan.old))) (cyclic_shape q) }
    ensures place { plan.new ≡ lent (lowest (cyclic_rules q (length plan.old))) (sets plan.old 0 (cyclic_plan q)) plan.old }
    ensures rows { byrow.new ≡ lent (lowest (cyclic_rules q (length plan.old))) (cyclic_weights q Checks) byrow.old }
    ensures cols { bycol.new ≡ lent (lowest (cyclic_rules q (length plan.old))) (cyclic_weights q Bits) bycol.old }
{
    let n = side(q.order);
    let area = n * n;
    let room = (3 * area * (n * area)).min(plan.len());
    let mut square = [0i16; ENTRIES];
    let ones = [1u8; ENTRIES];
    build_with(
        q,
        &mut square[..area],
        &ones[..area],
        &mut plan[..room],
        byrow,
        bycol,
    )
}
