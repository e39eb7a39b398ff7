ghost use Rattle.std.specs.Prelude.{◌≡◌, ◌∷◌, ◌++◌};
ghost use Rattle.refusal.specs.Answer.{ok_unless};
ghost use Rattle.exponent.specs.Limits.{WellFormed};
ghost use Rattle.exponent.specs.Tanner.{graph_of};
ghost use Rattle.tokens.specs.Tokens.{numeral, ending, mismatch};
ghost use Rattle.tokens.specs.Steps.{at_start, expect_after, mismatch_after};
ghost use Rattle.weights.specs.Weights.{Weighed};
ghost use Rattle.lines.specs.Text.{items_of};
ghost use Rattle.comparer.specs.Later.{later_lines};

use exponent::Shape;
use tokens::{Cursor, Form};

// A lent text, and how far reading has come in it: behind the number last read, or to a wrong token
// (document 01: "reading goes on in the lent text from the number last read").
#[derive(Clone, Copy, Debug)]
pub struct Reader<'a> {
    pub text: &'a [u8],
    pub step: Result<Cursor, usize>,
}

impl<'a> Reader<'a> {
    // Holds the next token to a number: the reader behind it.
    pub fn read_number(self, form: Form, n: usize) -> Reader<'a>
        ensures { (result.text ≡ self.entry.text) × (result.step ≡ expect_after form self.entry.text.now self.entry.step (numeral n)) }
    {
        Reader {
            step: tokens::expect_after(self.text, form, self.step, n),
            ..self
        }
    }

    // Compares what is left of a text behind the numbers of the first line: the end of that line, and the lines of a valid plan behind it.
    pub fn compare_rest(
        self,
        form: Form,
        plan: &[i16],
        byrow: &[u16],
        bycol: &[u16],
        s: Shape,
    ) -> Result<(), usize>
        requires { WellFormed plan.now s.rows s.cols s.lift × Weighed plan.now s byrow.now bycol.now }
        ensures { result ≡ ok_unless (mismatch_after form self.entry.text.now self.entry.step (ending form ++ items_of form (later_lines form (graph_of plan.now s)))) }
    {
        crate::compare_after(self.text, form, self.step, plan, byrow, bycol, s)
    }
}

// A reader at the text's start.
pub fn start_reading(text: &[u8]) -> Reader<'_>
    ensures { (result.text ≡ text.entry) × (result.step ≡ at_start) }
{
    Reader {
        text,
        step: Ok(Cursor { at: 0 }),
    }
}

// Reads the two numbers of the first line, and compares what is left with the lines behind it.
#[tactic(auto, using(tokens::proofs::Reading::after_item))]
pub fn read_alist(
    text: &[u8],
    form: Form,
    bits: usize,
    checks: usize,
    plan: &[i16],
    byrow: &[u16],
    bycol: &[u16],
    s: Shape,
) -> Result<(), usize>
    requires { WellFormed plan.now s.rows s.cols s.lift × Weighed plan.now s byrow.now bycol.now }
    ensures { result ≡ ok_unless (mismatch form text.now 0 (numeral bits ∷ numeral checks ∷ ending form ++ items_of form (later_lines form (graph_of plan.now s)))) }
{
    start_reading(text)
        .read_number(form, bits)
        .read_number(form, checks)
        .compare_rest(form, plan, byrow, bycol, s)
}
