ghost use Rattle.std.specs.Prelude.{◌≡◌, true, ◌<◌, ◌≤◌};
ghost use Rattle.steiner.specs.System.{is_order, cols, start, triple_at, place_in, too_long};

use crate::points;

// Three points, rising.
#[derive(Clone, Copy, Debug, PartialEq, Eq)]
pub struct Triple {
    pub a: usize,
    pub b: usize,
    pub c: usize,
}

// Whether an order is one of the five.
#[tactic(auto, unfolding(crate::specs::System::is_order, graph::specs::Count::member))]
pub fn is_order(order: usize) -> bool
    ensures { result ≡ is_order order }
{
    matches!(order, 7 | 9 | 13 | 15 | 19)
}

// How many triples an order has.
#[tactic(auto, using(crate::proofs::Orders::small), unfolding(crate::specs::System::cols))]
pub fn cols(order: usize) -> usize
    requires { is_order order ≡ true }
    ensures { result ≡ cols order }
{
    order * (order - 1) / 6
}

// Where the triples of an order begin in the list.
#[tactic(auto, unfolding(crate::specs::System::start, crate::specs::System::start_among, crate::specs::System::cols, crate::specs::System::is_order, graph::specs::Count::member))]
fn start(order: usize) -> usize
    requires { is_order order ≡ true }
    ensures { result ≡ start order }
{
    match order {
        7 => 0,
        9 => 21,
        13 => 57,
        15 => 135,
        _ => 240,
    }
}

// The triple in column j.
#[tactic(auto, using(crate::proofs::Orders::small), unfolding(crate::specs::System::triple_at))]
pub fn triple_at(order: usize, j: usize) -> Triple
    requires { (is_order order ≡ true) × (j < cols order) }
    ensures { result ≡ triple_at order j }
{
    let from = start(order) + 3 * j;
    Triple {
        a: points::point(from),
        b: points::point(from + 1),
        c: points::point(from + 2),
    }
}

// Which point of a triple i is, if it is one.
pub fn place_in(t: Triple, i: usize) -> Option<usize>
    ensures { result ≡ place_in t i }
{
    // Most points are none: asked first, that saves a tenth of the builder's instructions.
    if i != t.a && i != t.b && i != t.c {
        None
    } else if i == t.a {
        Some(0)
    } else if i == t.b {
        Some(1)
    } else {
        Some(2)
    }
}

// Whether the order is one of the five and its plan would have more than 65,536 bits.
#[tactic(auto, using(crate::proofs::Orders::small))]
pub fn too_long(order: usize, lift: usize) -> bool
    requires { lift ≤ 4096 }
    ensures { result ≡ too_long order lift }
{
    is_order(order) && 65536 < cols(order) * lift
}
