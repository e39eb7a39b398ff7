ghost use Rattle.std.specs.Prelude.{◌≡◌, ◌<◌, ◌≤◌};
ghost use Rattle.refusal.specs.Answer.{ok_unless, outcome};
ghost use Rattle.refusal.specs.Lowest.{lowest};
ghost use Rattle.square.specs.Mask.{weight};
ghost use Rattle.table.specs.Build.{table_rules, mask_rules, build_rules};

use exponent::limits;
use refusal::Refusal;
use square::mask;
use square::search::{self, Quad};
use weights::Room;

// Refusals 3, 7, 8, 9 and 10.
#[tactic(auto, using(refusal::proofs::Place::position_some, refusal::proofs::Place::position_none, exponent::proofs::Rules::inside, square::proofs::Repeats::found_some, square::proofs::Repeats::found_none), unfolding(crate::specs::Build::table_rules, refusal::specs::Lowest::lowest))]
fn judge_table(order: usize, lift: usize, table: &[i16]) -> Result<(), Refusal>
    ensures { result ≡ ok_unless (lowest (table_rules order lift table.now)) }
{
    if limits::outside(1, 4096, lift) {
        return Err(Refusal::Lift);
    }
    if limits::outside(4, 7, order) {
        return Err(Refusal::Order);
    }
    if table.len() != order * order {
        return Err(Refusal::TableLength);
    }
    if let Some(place) = search::first_negative(table) {
        return Err(Refusal::NegativeEntry(place));
    }
    match search::first_repeat(table, order, lift) {
        Some(Quad { i, k, r, t }) => Err(Refusal::Unsound { i, k, r, t }),
        None => Ok(()),
    }
}

// Refusals 11, 12, 13, 15 and 25; or the mask's common weight L.
#[tactic(auto, using(crate::proofs::Accepted::ones_are, crate::proofs::Accepted::ones_few, square::proofs::Weights::first_line, square::proofs::Places::square, grid::proofs::Columns::cols_small, grid::proofs::Columns::bits_small, grid::proofs::Columns::plan_small), unfolding(crate::specs::Build::mask_rules, refusal::specs::Lowest::lowest))]
fn judge_mask(order: usize, lift: usize, mask: &[u8], room: Room) -> Result<usize, Refusal>
    requires { (0 < order) × (order < 8) × (lift ≤ 4096) }
    ensures { result ≡ outcome (lowest (mask_rules order lift mask.now room)) (weight order mask.now) }
{
    if mask.len() != order * order || mask::above_one(mask) {
        return Err(Refusal::MaskByte);
    }
    let weight = mask::count_ones(mask, order, 0, 1);
    if !mask::common(mask, order, weight) {
        return Err(Refusal::MaskWeight);
    }
    let cols = order * (weight * weight);
    if 65536 < cols * lift {
        return Err(Refusal::TableBits);
    }
    let rows = 3 * (weight * order);
    if room.plan != rows * cols {
        return Err(Refusal::PlanPlace);
    }
    if room.rows != rows || room.cols != cols {
        return Err(Refusal::Weights);
    }
    Ok(weight)
}

// All refusals of the builder, the lowest first; or L.
#[tactic(auto, using(exponent::proofs::Rules::valid_none, crate::proofs::Accepted::table_small, crate::proofs::Accepted::table_accepted))]
pub fn judge(
    order: usize,
    lift: usize,
    table: &[i16],
    mask: &[u8],
    room: Room,
) -> Result<usize, Refusal>
    ensures { result ≡ outcome (lowest (build_rules order lift table.now mask.now room)) (weight order mask.now) }
{
    judge_table(order, lift, table)?;
    judge_mask(order, lift, mask, room)
}
