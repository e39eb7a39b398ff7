// The program's work (document 01, "alist text"): from the bytes that it reads to the bytes that it prints.
#![tactic(auto)]

ghost use Rattle.std.specs.Prelude.{◌≡◌, min, length};
ghost use Rattle.std.proofs.lemmas.List.Edits.{sets};
ghost use Rattle.planning.specs.Output.{output, output_for, plan_after, cyclic_rules, cyclic_plan};
ghost use Rattle.refusal.specs.Lowest.{lowest};
ghost use Rattle.refusal.specs.Lent.{lent};
ghost use Rattle.planning.specs.Steps.{side_of, Lists, Printed};

mod number; // number.rt: the number that a token stands for
mod request; // request.rt: the order J and the lift P
mod cyclic; // cyclic.rt: the cyclic plan with the full mask
mod print; // print.rt: the alist, or the line of a refusal

use request::Request;

// The largest order's plan has 3 × 7 × 7 rows and 7 × 7 × 7 columns.
const ROWS: usize = 147;

const COLS: usize = 343;

// Puts the output for a request into `text`, with lists for the weights of its plan.
#[tactic(auto, using(crate::proofs::Answers::size_small, crate::proofs::Answers::size_fits))]
fn request_text(
    q: Request,
    plan: &mut [i16],
    byrow: &mut [u16],
    bycol: &mut [u16],
    text: &mut [u8],
) -> usize
    requires { Lists (side_of q.order) byrow.old bycol.old }
    ensures bytes { Printed text.old (output_for q (length plan.old) text.old) result text.new }
    ensures place { plan.new ≡ lent (lowest (cyclic_rules q (length plan.old))) (sets plan.old 0 (cyclic_plan q)) plan.old }
{
    match cyclic::build(q, plan, byrow, bycol) {
        Ok(s) => {
            let end = s.rows * s.cols;
            print::judged(&plan[..end], s.rows, s.cols, s.lift, byrow, bycol, text)
        }
        Err(r) => print::refused(r, text),
    }
}

// Puts what is to be printed into `text`, as far as there is room, and returns how many bytes of it that is.
#[tactic(auto, using(crate::proofs::Plans::side_area, crate::proofs::Plans::side_cols, crate::proofs::Answers::told))]
pub fn plan_text(input: &[u8], plan: &mut [i16], text: &mut [u8]) -> usize
    ensures count { result ≡ min (length (output input.now (length plan.old) text.old)) (length text.old) }
    ensures bytes { text.new ≡ sets text.old 0 (output input.now (length plan.old) text.old) }
    ensures place { plan.new ≡ plan_after input.now plan.old }
{
    let q = request::read(input);
    let n = cyclic::side(q.order);
    let rows = 3 * (n * n);
    let cols = n * (n * n);
    let mut byrow = [0u16; ROWS];
    let mut bycol = [0u16; COLS];
    request_text(q, plan, &mut byrow[..rows], &mut bycol[..cols], text)
}
