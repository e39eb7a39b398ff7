ghost use Rattle.std.specs.Prelude.{◌≡◌, ◌+◌, ◌<◌, ◌≤◌, ◌^◌, length};
ghost use Rattle.refusal.specs.Answer.{ok_unless};
ghost use Rattle.refusal.specs.Lowest.{lowest};
ghost use Rattle.writing.specs.Wrote.{Wrote};
ghost use Rattle.exponent.specs.Limits.{WellFormed};
ghost use Rattle.exponent.specs.Tanner.{graph_of};
ghost use Rattle.weights.specs.Weights.{Weighed};
ghost use Rattle.lines.specs.Alist.{lines_of};
ghost use Rattle.lines.specs.Text.{item, line_from, text_of};
ghost use Rattle.lines.specs.Sides.{node_count, Small};
ghost use Rattle.lines.specs.Lines.{line_of, Measured, InLine};
ghost use Rattle.alist.specs.Calls.{alist_text, room_rules};
ghost use Rattle.alist.specs.Steps.{most_bytes, Put};

use exponent::Shape;
use lines::{Layout, Line, generate, sides};
use refusal::Refusal;
use tokens::Form;
use weights::Side;

// Writes the k-th number of a line, with a space before it unless it is the first.
#[tactic(auto, using(writing::proofs::Wrote::wrote_then, crate::proofs::Laid::item_first, crate::proofs::Laid::item_more))]
fn put_item(text: &mut [u8], at: usize, k: usize, n: usize) -> usize
    requires { at + length (item k n) < 2 ^ 64 }
    ensures { Wrote text.old at (item k n) result text.new }
{
    if k == 0 {
        decimal::put_number(text, at, n)
    } else {
        let next = decimal::put_byte(text, at, b' ');
        decimal::put_number(text, next, n)
    }
}

// Writes the line of a node, and a line feed after it: most lines are of this kind, so it goes from neighbour to neighbour directly.
// Stays: a loop beside that of put_numbers. With that one for every line, the writer was slower by a twentieth when it was tried.
#[tactic(auto, using(writing::proofs::Wrote::going_start, lines::proofs::Rest::node_start, lines::proofs::Rest::node_end, lines::proofs::Rest::node_goes, lines::proofs::Rest::most_is, crate::proofs::Laid::number_room, crate::proofs::Laid::number_done, crate::proofs::Laid::feed_room, crate::proofs::Laid::feed_done))]
fn put_node(
    text: &mut [u8],
    at: usize,
    plan: &[i16],
    down: &[u16],
    along: &[u16],
    l: Layout,
    side: Side,
    x: usize,
) -> usize
    requires { Measured plan.now l down.now along.now × (x < node_count l.shape side) × (at + length (line_from 0 (line_of (graph_of plan.now l.shape) (Line.Node side x))) < 2 ^ 64) }
    ensures { Wrote text.old at (line_from 0 (line_of (graph_of plan.now l.shape) (Line.Node side x))) result text.new }
{
    let mut from = 0;
    let mut o = at;
    for k in 0..lines::most_of(l, side) {
        let n = generate::next_neighbour(plan, down, along, l.shape, side, x, from);
        o = put_item(text, o, k, n.value);
        from = n.next;
    }
    decimal::put_byte(text, o, b'\n')
}

// Writes the numbers of a line, and a line feed after it.
#[tactic(auto, using(writing::proofs::Wrote::going_start, lines::proofs::Rest::line_start, lines::proofs::Rest::line_end, crate::proofs::Laid::number_room, crate::proofs::Laid::number_done, crate::proofs::Laid::feed_room, crate::proofs::Laid::feed_done))]
fn put_numbers(
    text: &mut [u8],
    at: usize,
    plan: &[i16],
    down: &[u16],
    along: &[u16],
    byrow: &[u16],
    bycol: &[u16],
    l: Layout,
    line: Line,
) -> usize
    requires { Measured plan.now l down.now along.now × Weighed plan.now l.shape byrow.now bycol.now × InLine l line × (at + length (line_from 0 (line_of (graph_of plan.now l.shape) line)) < 2 ^ 64) }
    ensures { Wrote text.old at (line_from 0 (line_of (graph_of plan.now l.shape) line)) result text.new }
{
    let mut from = 0;
    let mut o = at;
    for k in 0..lines::width(byrow, bycol, l, Form::Padded, line) {
        let n = generate::number_at(plan, down, along, byrow, bycol, l, line, k, from);
        o = put_item(text, o, k, n.value);
        from = n.next;
    }
    decimal::put_byte(text, o, b'\n')
}

// Writes a line.
fn put_line(
    text: &mut [u8],
    at: usize,
    plan: &[i16],
    down: &[u16],
    along: &[u16],
    byrow: &[u16],
    bycol: &[u16],
    l: Layout,
    line: Line,
) -> usize
    requires { Measured plan.now l down.now along.now × Weighed plan.now l.shape byrow.now bycol.now × InLine l line × (at + length (line_from 0 (line_of (graph_of plan.now l.shape) line)) < 2 ^ 64) }
    ensures { Wrote text.old at (line_from 0 (line_of (graph_of plan.now l.shape) line)) result text.new }
{
    match line {
        Line::Node(side, x) => put_node(text, at, plan, down, along, l, side, x),
        _ => put_numbers(text, at, plan, down, along, byrow, bycol, l, line),
    }
}

// Writes all lines, where there is room, and returns the text's length.
#[tactic(auto, using(writing::proofs::Wrote::going_start, lines::proofs::Rest::lines_start, lines::proofs::Rest::lines_next, lines::proofs::Rest::lines_end, crate::proofs::Laid::line_room, crate::proofs::Laid::line_done, crate::proofs::Laid::lines_done))]
fn put_text(
    text: &mut [u8],
    plan: &[i16],
    down: &[u16],
    along: &[u16],
    byrow: &[u16],
    bycol: &[u16],
    l: Layout,
) -> usize
    requires { Measured plan.now l down.now along.now × Weighed plan.now l.shape byrow.now bycol.now × (length (text_of (lines_of (graph_of plan.now l.shape))) < 2 ^ 64) }
    ensures { Wrote text.old 0 (text_of (lines_of (graph_of plan.now l.shape))) result text.new }
{
    let mut o = 0;
    for i in 0..lines::line_count(l) {
        let line = lines::line_at(l, i);
        o = put_line(text, o, plan, down, along, byrow, bycol, l, line);
    }
    o
}

// A length that no alist of the layout exceeds.
fn most_bytes(l: Layout) -> usize
    requires { Small l.shape × (l.bits ≤ 512) × (l.checks ≤ 512) }
    ensures { result ≡ most_bytes l }
{
    let bits = sides::node_count(l.shape, Side::Bits);
    let checks = sides::node_count(l.shape, Side::Checks);
    8 * (4 + (bits + checks)) + 7 * (bits * l.bits + checks * l.checks)
}

// The length of all lines: a run over no place at all tells it.
#[tactic(auto, using(crate::proofs::Bounds::text_fits))]
fn text_length(
    plan: &[i16],
    down: &[u16],
    along: &[u16],
    byrow: &[u16],
    bycol: &[u16],
    l: Layout,
) -> usize
    requires { Measured plan.now l down.now along.now × Weighed plan.now l.shape byrow.now bycol.now }
    ensures { result ≡ length (text_of (lines_of (graph_of plan.now l.shape))) }
{
    put_text(&mut [], plan, down, along, byrow, bycol, l)
}

// Whether a place has room for all lines. Where it is long enough for any alist of the layout, their length need not be told.
#[tactic(auto, using(crate::proofs::Bounds::layout_few, crate::proofs::Bounds::layout_most, lines::proofs::Lanes::small), unfolding(refusal::specs::Lowest::lowest))]
fn judge_room(
    text: &[u8],
    plan: &[i16],
    down: &[u16],
    along: &[u16],
    byrow: &[u16],
    bycol: &[u16],
    l: Layout,
) -> Result<(), Refusal>
    requires { Measured plan.now l down.now along.now × Weighed plan.now l.shape byrow.now bycol.now }
    ensures { result ≡ ok_unless (lowest (room_rules (text_of (lines_of (graph_of plan.now l.shape))) text.now)) }
{
    if most_bytes(l) <= text.len() {
        return Ok(());
    }
    let need = text_length(plan, down, along, byrow, bycol, l);
    if text.len() < need {
        Err(Refusal::TextPlace(need))
    } else {
        Ok(())
    }
}

// Writes the alist of a valid plan with its lists of weights, unless the place is too short.
#[tactic(auto, using(lines::proofs::Weights::laid_measured, lines::proofs::Weights::laid_weighed, crate::proofs::Bounds::text_fits))]
pub fn write_weighed(
    plan: &[i16],
    s: Shape,
    byrow: &[u16],
    bycol: &[u16],
    text: &mut [u8],
) -> Result<usize, Refusal>
    requires { WellFormed plan.now s.rows s.cols s.lift × Weighed plan.now s byrow.now bycol.now }
    ensures { Put (alist_text plan.now s.rows s.cols s.lift) text.old result text.new }
{
    let mut down = [0u16; index::PLACES];
    let mut along = [0u16; index::PLACES];
    index::build(plan, s, &mut down, &mut along);
    let l = lines::measure(byrow, bycol, s);
    judge_room(text, plan, &down, &along, byrow, bycol, l)?;
    Ok(put_text(text, plan, &down, &along, byrow, bycol, l))
}

// The length of that alist.
#[tactic(auto, using(lines::proofs::Weights::laid_measured, lines::proofs::Weights::laid_weighed))]
pub fn length_weighed(plan: &[i16], s: Shape, byrow: &[u16], bycol: &[u16]) -> usize
    requires { WellFormed plan.now s.rows s.cols s.lift × Weighed plan.now s byrow.now bycol.now }
    ensures { result ≡ length (alist_text plan.now s.rows s.cols s.lift) }
{
    let mut down = [0u16; index::PLACES];
    let mut along = [0u16; index::PLACES];
    index::build(plan, s, &mut down, &mut along);
    let l = lines::measure(byrow, bycol, s);
    text_length(plan, &down, &along, byrow, bycol, l)
}
