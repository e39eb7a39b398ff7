ghost use Rattle.std.specs.Prelude.{◌≡◌, ◌*◌, ◌<◌, length};
ghost use Rattle.square.specs.Table.{half, supplied_at, supplied_table};

use crate::signed;

// The two constructions (004, section III).
#[derive(Clone, Copy, Debug, PartialEq, Eq)]
pub enum Family {
    Array,
    Cyclic,
}

// k(k − 1)/2.
fn half(k: usize) -> usize
    requires { k < 8 }
    ensures { result ≡ half k }
{
    k * k.saturating_sub(1) / 2
}

// The entry of a supplied table in row i and column r.
fn supplied_at(family: Family, order: usize, i: usize, r: usize) -> usize
    requires { (order < 8) × (i < order) × (r < order) }
    ensures { result ≡ supplied_at family order i r }
{
    match family {
        Family::Array => i * r % order,
        Family::Cyclic => half((r + (order - i)) % order),
    }
}

// Writes a supplied table.
pub fn put_table(family: Family, order: usize, table: &mut [i16])
    requires { (0 < order) × (order < 8) × (length table.old ≡ order * order) }
    ensures { table.new ≡ supplied_table family order }
{
    for n in 0..order * order {
        table[n] = signed::make(true, supplied_at(family, order, n / order, n % order));
    }
}
