// The comparer of alist text: a lent text, token by token, against the lines of a plan in their two forms.
#![tactic(auto)]

ghost use Rattle.std.specs.Prelude.{◌≡◌, ◌++◌, map, ◌≤◌, max, length};
ghost use Rattle.refusal.specs.Answer.{ok_unless};
ghost use Rattle.exponent.specs.Limits.{WellFormed};
ghost use Rattle.exponent.specs.Tanner.{graph_of};
ghost use Rattle.tokens.specs.Tokens.{numeral, ending, mismatch};
ghost use Rattle.tokens.specs.Steps.{read_line, mismatch_after};
ghost use Rattle.weights.specs.Weights.{Weighed};
ghost use Rattle.lines.specs.Lines.{line_in, Measured, InLine};
ghost use Rattle.lines.specs.Text.{line_items, items_of};
ghost use Rattle.comparer.specs.Verdict.{departs_in, departs};
ghost use Rattle.comparer.specs.Later.{later_lines};

use exponent::Shape;
use lines::{Layout, Line, generate, sides};
use tokens::{Cursor, Form};
use weights::Side;

mod reader; // reader.rt: a lent text, and how far reading has come in it

// Holds the next tokens to the numbers of a line.
#[tactic(auto, using(tokens::proofs::Reading::expect_le, tokens::proofs::Reading::read_next, tokens::proofs::Reading::read_end, lines::proofs::Rest::line_start, lines::proofs::Rest::line_end, lines::proofs::Rest::width_le))]
fn expect_numbers(
    text: &[u8],
    form: Form,
    mut c: Cursor,
    plan: &[i16],
    byrow: &[u16],
    bycol: &[u16],
    down: &[u16],
    along: &[u16],
    l: Layout,
    line: Line,
) -> Result<Cursor, usize>
    requires { Measured plan.now l down.now along.now × Weighed plan.now l.shape byrow.now bycol.now × InLine l line × (c.at ≤ length text.now) }
    ensures { result ≡ read_line form text.now c.at (map numeral (line_in form (graph_of plan.now l.shape) line)) }
{
    let mut from = 0;
    for k in 0..lines::width(byrow, bycol, l, form, line) {
        let n = generate::number_at(plan, down, along, byrow, bycol, l, line, k, from);
        c = tokens::expect_number(text, form, c, n.value)?;
        from = n.next;
    }
    Ok(c)
}

// Holds the next tokens to a line: its numbers and, in the unpadded form, its end.
#[tactic(auto, using(tokens::proofs::Reading::line_append))]
fn expect_line(
    text: &[u8],
    form: Form,
    c: Cursor,
    plan: &[i16],
    byrow: &[u16],
    bycol: &[u16],
    down: &[u16],
    along: &[u16],
    l: Layout,
    line: Line,
) -> Result<Cursor, usize>
    requires { Measured plan.now l down.now along.now × Weighed plan.now l.shape byrow.now bycol.now × InLine l line × (c.at ≤ length text.now) }
    ensures { result ≡ read_line form text.now c.at (line_items form (line_in form (graph_of plan.now l.shape) line)) }
{
    let step = expect_numbers(text, form, c, plan, byrow, bycol, down, along, l, line);
    tokens::end_line(text, form, step)
}

// Holds the tokens from a place on to the lines behind the first; after them no token may follow.
#[tactic(auto, using(tokens::proofs::Reading::line_le, crate::proofs::Reading::line_right, crate::proofs::Reading::extra, crate::proofs::Reading::agrees, crate::proofs::Reading::lines_later, lines::proofs::Rest::lines_next, lines::proofs::Rest::lines_end))]
fn compare_lines(
    text: &[u8],
    form: Form,
    mut c: Cursor,
    plan: &[i16],
    byrow: &[u16],
    bycol: &[u16],
    down: &[u16],
    along: &[u16],
    l: Layout,
) -> Result<(), usize>
    requires { Measured plan.now l down.now along.now × Weighed plan.now l.shape byrow.now bycol.now × (c.at ≤ length text.now) }
    ensures { result ≡ ok_unless (mismatch form text.now c.at (items_of form (later_lines form (graph_of plan.now l.shape)))) }
{
    for i in 1..lines::line_count(l) {
        let line = lines::line_at(l, i);
        c = expect_line(text, form, c, plan, byrow, bycol, down, along, l, line)?;
    }
    let extra = tokens::skip(text, form, c.at);
    if extra < text.len() {
        Err(extra)
    } else {
        Ok(())
    }
}

// Compares a text, from a place on, with the lines of a valid plan behind the first.
#[tactic(auto, using(lines::proofs::Weights::laid_measured, lines::proofs::Weights::laid_weighed))]
fn compare_from(
    text: &[u8],
    form: Form,
    c: Cursor,
    plan: &[i16],
    byrow: &[u16],
    bycol: &[u16],
    s: Shape,
) -> Result<(), usize>
    requires { WellFormed plan.now s.rows s.cols s.lift × Weighed plan.now s byrow.now bycol.now × (c.at ≤ length text.now) }
    ensures { result ≡ ok_unless (mismatch form text.now c.at (items_of form (later_lines form (graph_of plan.now s)))) }
{
    let mut down = [0u16; index::PLACES];
    let mut along = [0u16; index::PLACES];
    index::build(plan, s, &mut down, &mut along);
    let l = lines::measure(byrow, bycol, s);
    compare_lines(text, form, c, plan, byrow, bycol, &down, &along, l)
}

// The same behind the numbers of the first line, from any place: the end of that line comes next. A wrong step decides, and past the
// text's end the first number is missing.
#[tactic(auto, using(crate::proofs::Reading::past_end, tokens::proofs::Reading::after_items))]
fn compare_after(
    text: &[u8],
    form: Form,
    step: Result<Cursor, usize>,
    plan: &[i16],
    byrow: &[u16],
    bycol: &[u16],
    s: Shape,
) -> Result<(), usize>
    requires { WellFormed plan.now s.rows s.cols s.lift × Weighed plan.now s byrow.now bycol.now }
    ensures { result ≡ ok_unless (mismatch_after form text.now step (ending form ++ items_of form (later_lines form (graph_of plan.now s)))) }
{
    let c = tokens::end_line(text, form, step)?;
    if text.len() < c.at {
        Err(c.at)
    } else {
        compare_from(text, form, c, plan, byrow, bycol, s)
    }
}

// Compares a text with the alist of a valid plan in a form: the two sizes of its first line are read first.
#[tactic(auto, using(crate::proofs::Reading::first_line), unfolding(crate::specs::Verdict::departs_in))]
fn compare_in(
    text: &[u8],
    form: Form,
    plan: &[i16],
    byrow: &[u16],
    bycol: &[u16],
    s: Shape,
) -> Result<(), usize>
    requires { WellFormed plan.now s.rows s.cols s.lift × Weighed plan.now s byrow.now bycol.now }
    ensures { result ≡ ok_unless (departs_in form text.now (graph_of plan.now s)) }
{
    let bits = sides::node_count(s, Side::Bits);
    let checks = sides::node_count(s, Side::Checks);
    reader::read_alist(text, form, bits, checks, plan, byrow, bycol, s)
}

// Compares a text with the alist of a valid plan with its weights, in the padded form and, where it differs from that, in the unpadded one.
pub fn compare(
    text: &[u8],
    plan: &[i16],
    byrow: &[u16],
    bycol: &[u16],
    s: Shape,
) -> Result<(), usize>
    requires { WellFormed plan.now s.rows s.cols s.lift × Weighed plan.now s byrow.now bycol.now }
    ensures { result ≡ ok_unless (departs text.now (graph_of plan.now s)) }
{
    compare_in(text, Form::Padded, plan, byrow, bycol, s).or_else(|p| {
        compare_in(text, Form::Unpadded, plan, byrow, bycol, s).map_err(|q| p.max(q))
    })
}
