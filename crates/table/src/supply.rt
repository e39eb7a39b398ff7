ghost use Rattle.std.specs.Prelude.{◌≡◌, length};
ghost use Rattle.refusal.specs.Answer.{ok_unless};
ghost use Rattle.refusal.specs.Lowest.{lowest};
ghost use Rattle.refusal.specs.Lent.{lent};
ghost use Rattle.square.specs.Table.{supplied_table};
ghost use Rattle.table.specs.Build.{supply_rules};

use exponent::limits;
use refusal::Refusal;
use square::supply::Family;

// Writes a supplied table, or turns the caller away.
#[tactic(auto, unfolding(crate::specs::Build::supply_rules, refusal::specs::Lowest::lowest))]
pub fn supply(family: Family, order: usize, table: &mut [i16]) -> Result<(), Refusal>
    ensures answer { result ≡ ok_unless (lowest (supply_rules order (length table.old))) }
    ensures place { table.new ≡ lent (lowest (supply_rules order (length table.old))) (supplied_table family order) table.old }
{
    if limits::outside(4, 7, order) {
        return Err(Refusal::Order);
    }
    if table.len() != order * order {
        return Err(Refusal::TableLength);
    }
    square::supply::put_table(family, order, table);
    Ok(())
}
