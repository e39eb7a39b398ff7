ghost use Rattle.std.specs.Prelude.{◌≡◌};
ghost use Rattle.refusal.specs.Answer.{ok_unless};
ghost use Rattle.refusal.specs.Lowest.{lowest};
ghost use Rattle.steiner.specs.Build.{build_rules};

use crate::system;
use exponent::limits;
use refusal::Refusal;
use square::search;
use weights::Room;

// All refusals of the builder, the lowest first.
#[tactic(auto, using(refusal::proofs::Place::position_some, refusal::proofs::Place::position_none, crate::proofs::Orders::small), unfolding(crate::specs::Build::build_rules, refusal::specs::Lowest::lowest))]
pub fn judge(order: usize, lift: usize, voltages: &[i16], room: Room) -> Result<(), Refusal>
    ensures { result ≡ ok_unless (lowest (build_rules order lift voltages.now room)) }
{
    if limits::outside(1, 4096, lift) {
        return Err(Refusal::Lift);
    }
    if system::too_long(order, lift) {
        return Err(Refusal::Bits);
    }
    if let Some(place) = search::first_negative(voltages) {
        return Err(Refusal::Entry(place));
    }
    if !system::is_order(order) {
        return Err(Refusal::SteinerOrder);
    }
    let cols = system::cols(order);
    if voltages.len() != 3 * cols || room.plan != order * cols {
        return Err(Refusal::SteinerLength);
    }
    if room.rows != order || room.cols != cols {
        return Err(Refusal::Weights);
    }
    Ok(())
}
