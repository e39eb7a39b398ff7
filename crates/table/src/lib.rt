// Table plans: the exponent matrix (document 01: plan) that a table and a mask give, and the calls that supply a table.
#![tactic(auto)]

ghost use Rattle.std.specs.Prelude.{◌≡◌, length};
ghost use Rattle.refusal.specs.Answer.{ok_unless, outcome};
ghost use Rattle.refusal.specs.Lowest.{lowest};
ghost use Rattle.refusal.specs.Lent.{lent};
ghost use Rattle.weights.specs.Weights.{held};
ghost use Rattle.square.specs.declared.supply.Family.TheVariants.{Array, Cyclic};
ghost use Rattle.square.specs.Table.{supplied_table};
ghost use Rattle.table.specs.Build.{supply_rules, build_refusal, after_build, built_shape};

mod write; // write.rt: the plan, written row by row
mod judge; // judge.rt: refusals 3, 7 to 13, 15 and 25 in their order
pub mod supply; // supply.rt: a supplied table, or refusals 7 and 8

use exponent::Shape;
use refusal::Refusal;
use square::supply::Family;
use weights::Room;
use write::Size;

// Stays: the documents name one call for each of the two tables, so `array` and `cyclic` stand beside `supply::supply`.
// Writes the array table, i × r mod J, or turns the caller away and leaves the list as it is.
pub fn array(order: usize, table: &mut [i16]) -> Result<(), Refusal>
    ensures answer { result ≡ ok_unless (lowest (supply_rules order (length table.old))) }
    ensures place { table.new ≡ lent (lowest (supply_rules order (length table.old))) (supplied_table Array order) table.old }
{
    supply::supply(Family::Array, order, table)
}

// Writes the cyclic table, k(k − 1)/2 with k = (r − i) mod J, or turns the caller away and leaves the list as it is.
pub fn cyclic(order: usize, table: &mut [i16]) -> Result<(), Refusal>
    ensures answer { result ≡ ok_unless (lowest (supply_rules order (length table.old))) }
    ensures place { table.new ≡ lent (lowest (supply_rules order (length table.old))) (supplied_table Cyclic order) table.old }
{
    supply::supply(Family::Cyclic, order, table)
}

// Writes the plan of a table and a mask, and its weights, and answers the plan's sizes; or turns the caller away and leaves all
// three lent lists as they are.
#[tactic(auto, using(crate::proofs::Accepted::accepts, crate::proofs::Accepted::taken, crate::proofs::Accepted::ready, crate::proofs::Accepted::place_fits, crate::proofs::Plans::built_is_good, square::proofs::Places::square, grid::proofs::Columns::cols_small), unfolding(crate::specs::Build::built_plan))]
pub fn build(
    order: usize,
    lift: usize,
    table: &[i16],
    mask: &[u8],
    plan: &mut [i16],
    row_weights: &mut [u16],
    col_weights: &mut [u16],
) -> Result<Shape, Refusal>
    ensures answer { result ≡ outcome (build_refusal order lift table.now mask.now (held plan.old row_weights.old col_weights.old)) (built_shape order lift mask.now) }
    ensures place { plan.new ≡ (after_build order lift table.now mask.now (held plan.old row_weights.old col_weights.old)).plan }
    ensures rows { row_weights.new ≡ (after_build order lift table.now mask.now (held plan.old row_weights.old col_weights.old)).rows }
    ensures cols { col_weights.new ≡ (after_build order lift table.now mask.now (held plan.old row_weights.old col_weights.old)).cols }
{
    let room = Room {
        plan: plan.len(),
        rows: row_weights.len(),
        cols: col_weights.len(),
    };
    let weight = judge::judge(order, lift, table, mask, room)?;
    let shape = Shape {
        rows: 3 * (weight * order),
        cols: order * (weight * weight),
        lift,
    };
    let size = Size {
        order,
        weight,
        lift,
    };
    write::fill(table, mask, size, plan);
    weights::fill(plan, shape, row_weights, col_weights);
    Ok(shape)
}
