// The numbers of the alist in its two forms, line by line (document 01, "alist text"): here the lines in their order.
#![tactic(auto)]

ghost use Rattle.std.specs.Prelude.{◌≡◌, ◌+◌, ◌<◌, get_or};
ghost use Rattle.lines.specs.Alist.{greatest};
ghost use Rattle.lines.specs.Sides.{Small, node_count};
ghost use Rattle.lines.specs.Lines.{side_at, most_of, layout_of, Listed, list_width, width_of, InLine, line_count, order};

pub mod generate; // generate.rt: the numbers of a line, one after the other
pub mod sides; // sides.rt: bits and checks, and their neighbours in a block

use exponent::Shape;
use tokens::Form;
use weights::Side;

// The sizes of a plan, and the greatest degree of a bit and of a check.
#[derive(Clone, Copy, Debug, PartialEq, Eq)]
pub struct Layout {
    pub shape: Shape,
    pub bits: usize,
    pub checks: usize,
}

// A line of the alist: the degrees of a side, or the neighbours of a node, among others.
#[derive(Clone, Copy, Debug, PartialEq, Eq)]
pub enum Line {
    Sizes,
    Greatest,
    Degrees(Side),
    Node(Side, usize),
}

// The side that a line's number k belongs to, in the two lines that have one number of each.
pub fn side_at(k: usize) -> Side
    ensures { result ≡ side_at k }
{
    if k == 0 { Side::Bits } else { Side::Checks }
}

// The greatest degree of a side.
pub fn most_of(l: Layout, side: Side) -> usize
    ensures { result ≡ most_of l side }
{
    match side {
        Side::Bits => l.bits,
        Side::Checks => l.checks,
    }
}

// How many numbers the list of a node has: in the unpadded form as many as its degree.
fn list_width(byrow: &[u16], bycol: &[u16], l: Layout, form: Form, side: Side, x: usize) -> usize
    requires { Listed l byrow.now bycol.now × (x < node_count l.shape side) }
    ensures { result ≡ list_width form l byrow.now bycol.now side x }
{
    match form {
        Form::Padded => most_of(l, side),
        Form::Unpadded => weights::listed(byrow, bycol, side, x / l.shape.lift),
    }
}

// How many numbers a line has.
pub fn width(byrow: &[u16], bycol: &[u16], l: Layout, form: Form, line: Line) -> usize
    requires { Listed l byrow.now bycol.now × InLine l line }
    ensures { result ≡ width_of form l byrow.now bycol.now line }
{
    match line {
        Line::Sizes | Line::Greatest => 2,
        Line::Degrees(side) => sides::node_count(l.shape, side),
        Line::Node(side, x) => list_width(byrow, bycol, l, form, side, x),
    }
}

// How many lines there are.
pub fn line_count(l: Layout) -> usize
    requires { Small l.shape }
    ensures { result ≡ line_count l }
{
    4 + (sides::node_count(l.shape, Side::Bits) + sides::node_count(l.shape, Side::Checks))
}

// Line i: four of all nodes, and then one for each bit and one for each check.
#[tactic(auto, using(crate::proofs::Rest::order_bit, crate::proofs::Rest::order_check), unfolding(crate::specs::Lines::order))]
pub fn line_at(l: Layout, i: usize) -> Line
    requires { Small l.shape × (i < line_count l) }
    ensures { (result ≡ get_or (order l.shape) i Line.Sizes) × InLine l result }
{
    let bits = sides::node_count(l.shape, Side::Bits);
    match i {
        0 => Line::Sizes,
        1 => Line::Greatest,
        2 => Line::Degrees(Side::Bits),
        3 => Line::Degrees(Side::Checks),
        _ if i < 4 + bits => Line::Node(Side::Bits, i - 4),
        _ => Line::Node(Side::Checks, i - 4 - bits),
    }
}

// The greatest of a list of weights, or 0.
fn most(list: &[u16]) -> usize
    ensures { result ≡ greatest list.now }
{
    list.iter().copied().max().unwrap_or(0) as usize
}

// The layout of a plan, from its lists of weights.
pub fn measure(byrow: &[u16], bycol: &[u16], s: Shape) -> Layout
    ensures { result ≡ layout_of s byrow.now bycol.now }
{
    Layout {
        shape: s,
        bits: most(bycol),
        checks: most(byrow),
    }
}
