ghost use Rattle.std.specs.Prelude.{◌≡◌, ◌∷◌, ℕ, ◌+◌, ◌<◌};
ghost use Rattle.weights.specs.Weights.{Weighed};
ghost use Rattle.lines.specs.Sides.{node_count, rest_of, Ready};
ghost use Rattle.lines.specs.Lines.{Fills, Measured, width_of, InLine, line_rest};

use crate::{Layout, Line, most_of, side_at, sides};
use exponent::Shape;
use tokens::Form;
use weights::Side;

// A number of a line, and the block that the line goes on from.
#[derive(Clone, Copy, Debug, PartialEq, Eq)]
pub struct Number {
    pub value: usize,
    pub next: usize,
}

// The next neighbour of node x in the blocks from `from` on, or 0 where it has no more.
// Stays: 0 and no Option, since 0 is what fills up a short list, and the writer's loop needs no case for it.
#[tactic(auto, using(crate::proofs::Rest::neighbour_next, crate::proofs::Lanes::rest_end, crate::proofs::Rest::fills_zero))]
pub fn next_neighbour(
    plan: &[i16],
    down: &[u16],
    along: &[u16],
    s: Shape,
    side: Side,
    x: usize,
    from: usize,
) -> Number
    requires { Ready plan.now s down.now along.now × (x < node_count s side) }
    ensures { Fills (rest_of plan.now s side x) from result }
{
    if weights::blocks(s, side) <= from {
        return Number {
            value: 0,
            next: from,
        };
    }
    let lane = x / s.lift;
    let block = sides::next_block(down, along, s, side, lane, from);
    Number {
        value: sides::number_in(plan, s, side, lane, x % s.lift, block),
        next: block + 1,
    }
}

// The k-th number of a line, whatever its width w; `from` is the block that the line has come to. Degrees come from the lists of weights.
#[tactic(auto, using(crate::proofs::Rest::sizes_next, crate::proofs::Rest::greatest_next, crate::proofs::Rest::degree_next, crate::proofs::Rest::node_next, crate::proofs::Lanes::node_lane, weights::proofs::Weights::listed_length))]
pub fn number_at(
    plan: &[i16],
    down: &[u16],
    along: &[u16],
    byrow: &[u16],
    bycol: &[u16],
    l: Layout,
    line: Line,
    k: usize,
    from: usize,
) -> Number
    requires { Measured plan.now l down.now along.now × Weighed plan.now l.shape byrow.now bycol.now × (k < width_of Form.Padded l byrow.now bycol.now line) × InLine l line }
    ensures { (w : ℕ) → k < w → line_rest plan.now l line w k from ≡ result.value ∷ line_rest plan.now l line w (k + 1) result.next }
{
    match line {
        Line::Sizes => Number {
            value: sides::node_count(l.shape, side_at(k)),
            next: 0,
        },
        Line::Greatest => Number {
            value: most_of(l, side_at(k)),
            next: 0,
        },
        Line::Degrees(side) => Number {
            value: weights::listed(byrow, bycol, side, k / l.shape.lift),
            next: 0,
        },
        Line::Node(side, x) => next_neighbour(plan, down, along, l.shape, side, x, from),
    }
}
