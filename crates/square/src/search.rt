ghost use Rattle.std.specs.Prelude.{◌≡◌, ◌<◌, ◌≤◌};
ghost use Rattle.std.specs.List.{find, position};
ghost use Rattle.square.specs.Table.{negative, table_at, minus, repeats, quads};
ghost use Rattle.square.specs.Inner.{Square, quad};

use crate::signed;

// Two rows i, k of a table and two of its columns r, t.
#[derive(Clone, Copy, Debug, PartialEq, Eq)]
pub struct Quad {
    pub i: usize,
    pub k: usize,
    pub r: usize,
    pub t: usize,
}

// The place of the first negative entry, if there is one.
pub fn first_negative(table: &[i16]) -> Option<usize>
    ensures { result ≡ position negative table.now }
{
    table.iter().position(|&e| signed::entry(e).is_none())
}

// The table's number s(i, r).
pub fn table_at(table: &[i16], order: usize, i: usize, r: usize) -> usize
    requires { Square order table.now × (i < order) × (r < order) }
    ensures { result ≡ table_at order table.now i r }
{
    signed::entry(table[i * order + r]).unwrap_or(0)
}

// a − b modulo the lift.
fn minus(lift: usize, a: usize, b: usize) -> usize
    requires { (0 < lift) × (lift ≤ 4096) }
    ensures { result ≡ minus lift a b }
{
    (a % lift + (lift - b % lift)) % lift
}

// s(i, r) − s(k, r) modulo the lift.
fn row_minus(table: &[i16], order: usize, lift: usize, i: usize, k: usize, r: usize) -> usize
    requires { Square order table.now × (0 < lift) × (lift ≤ 4096) × (i < order) × (k < order) × (r < order) }
    ensures { result ≡ minus lift (table_at order table.now i r) (table_at order table.now k r) }
{
    minus(
        lift,
        table_at(table, order, i, r),
        table_at(table, order, k, r),
    )
}

// Whether i < k and r < t, and the rows i and k have the same difference at the columns r and t.
fn repeats(table: &[i16], order: usize, lift: usize, q: Quad) -> bool
    requires { Square order table.now × (0 < lift) × (lift ≤ 4096) × (q.i < order) × (q.k < order) × (q.r < order) × (q.t < order) }
    ensures { result ≡ repeats lift (table_at order table.now) q }
{
    q.i < q.k
        && q.r < q.t
        && row_minus(table, order, lift, q.i, q.k, q.r)
            == row_minus(table, order, lift, q.i, q.k, q.t)
}

// The four numbers that n is written with to the base order.
fn quad_of(order: usize, n: usize) -> Quad
    requires { 0 < order }
    ensures { result ≡ quad order n }
{
    let x = n / order;
    let y = x / order;
    Quad {
        i: y / order,
        k: y % order,
        r: x % order,
        t: n % order,
    }
}

// The first repeat among all i, k, r, t, if there is one.
#[tactic(auto, using(crate::proofs::Repeats::found_nowhere))]
pub fn first_repeat(table: &[i16], order: usize, lift: usize) -> Option<Quad>
    requires { Square order table.now × (0 < lift) × (lift ≤ 4096) }
    ensures { result ≡ find (repeats lift (table_at order table.now)) (quads order) }
{
    for n in 0..order * order * order * order {
        let q = quad_of(order, n);
        if repeats(table, order, lift, q) {
            return Some(q);
        }
    }
    None
}
