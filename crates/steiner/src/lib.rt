// Steiner triple plans (document 02, slips 6 and 7): rows are the points of a triple system, columns its triples.
#![tactic(auto)]

ghost use Rattle.std.specs.Prelude.{◌≡◌};
ghost use Rattle.refusal.specs.Answer.{outcome};
ghost use Rattle.weights.specs.Weights.{held};
ghost use Rattle.steiner.specs.Build.{build_refusal, after_build, built_shape};

mod points; // points.rt: the constant list of all triples
mod system; // system.rt: the orders, and their triples in the list
mod judge; // judge.rt: refusals 3, 4, 6, 22, 23 and 25 in their order
mod write; // write.rt: the plan, written row by row

use exponent::Shape;
use refusal::Refusal;
use weights::Room;

// Writes the plan of a triple system and one voltage for each point of each triple, and its weights, and answers the plan's sizes; or
// turns the caller away and leaves all three lent lists as they are.
#[tactic(auto, using(crate::proofs::Accepted::taken, crate::proofs::Plans::built_plan_law, exponent::proofs::Rules::valid_none))]
pub fn build(
    order: usize,
    lift: usize,
    voltages: &[i16],
    plan: &mut [i16],
    row_weights: &mut [u16],
    col_weights: &mut [u16],
) -> Result<Shape, Refusal>
    ensures answer { result ≡ outcome (build_refusal order lift voltages.now (held plan.old row_weights.old col_weights.old)) (built_shape order lift) }
    ensures place { plan.new ≡ (after_build order lift voltages.now (held plan.old row_weights.old col_weights.old)).plan }
    ensures rows { row_weights.new ≡ (after_build order lift voltages.now (held plan.old row_weights.old col_weights.old)).rows }
    ensures cols { col_weights.new ≡ (after_build order lift voltages.now (held plan.old row_weights.old col_weights.old)).cols }
{
    let room = Room {
        plan: plan.len(),
        rows: row_weights.len(),
        cols: col_weights.len(),
    };
    judge::judge(order, lift, voltages, room)?;
    let shape = Shape {
        rows: order,
        cols: system::cols(order),
        lift,
    };
    write::fill(order, lift, voltages, plan);
    weights::fill(plan, shape, row_weights, col_weights);
    Ok(shape)
}
