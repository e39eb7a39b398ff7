ghost use Rattle.std.specs.Prelude.{◌≡◌, ℕ, List, ◌+◌, ◌≤◌, length};
ghost use Rattle.std.proofs.lemmas.List.Edits.{sets};
ghost use Rattle.qcldpc.specs.Door.{nothing, one, sizes, counts, odd_check, verdict, witness, refusal, given};

use exponent::Shape;
use girth::Cycle;
use peeling::Filling;
use refusal::Refusal;
use walks::trail::PLACES;

// What the result of a call puts into the first places of `out`.
pub trait Reply {
    ghost puts: { Self → List ℕ → List ℕ };

    fn put(self, out: &mut [u64])
        requires { 32 ≤ length out.old }
        ensures { out.new ≡ puts self out.old };
}

// Writes all of `from` into `out`, from place `at` on.
fn write(out: &mut [u64], at: usize, from: &[usize])
    requires { at + length from.now ≤ length out.old }
    ensures { out.new ≡ sets out.old at from.now }
{
    for (k, x) in from.iter().enumerate() {
        out[at + k] = *x as u64;
    }
}

// Nothing but that the call was not refused.
impl Reply for () {
    ghost puts = { nothing };

    fn put(self, _out: &mut [u64]) {}
}

// A number: the joined lift, the text's length, how many bits were turned, how many are erasures.
impl Reply for usize {
    ghost puts = { one };

    fn put(self, out: &mut [u64]) {
        write(out, 0, &[self]);
    }
}

// A built plan: its rows and columns.
impl Reply for Shape {
    ghost puts = { sizes };

    fn put(self, out: &mut [u64]) {
        write(out, 0, &[self.rows, self.cols]);
    }
}

// The decoder: how many erasures were filled, and how many are left.
impl Reply for Filling {
    ghost puts = { counts };

    fn put(self, out: &mut [u64]) {
        write(out, 0, &[self.filled, self.left]);
    }
}

// The syndrome: 0 where every check is even, else 1 and the lowest odd check.
impl Reply for Option<usize> {
    ghost puts = { odd_check };

    fn put(self, out: &mut [u64]) {
        match self {
            None => write(out, 0, &[0]),
            Some(c) => write(out, 0, &[1, c]),
        }
    }
}

// The girth test by sorted pairs: 0 where the plan passes, else 1.
impl Reply for bool {
    ghost puts = { verdict };

    fn put(self, out: &mut [u64]) {
        write(out, 0, &[if self { 0 } else { 1 }]);
    }
}

// The girth test: n, the checks from place 1 and the bits from place 9; all 0 where the plan passes.
impl Reply for Option<Cycle> {
    ghost puts = { witness };

    fn put(self, out: &mut [u64]) {
        match self {
            None => {
                write(out, 0, &[0]);
                write(out, 1, &[0; PLACES]);
                write(out, 9, &[0; PLACES]);
            }
            Some(c) => {
                let checks = c.checks;
                let bits = c.bits;
                write(out, 0, &[c.n]);
                write(out, 1, &checks);
                write(out, 9, &bits);
            }
        }
    }
}

// A refusal: its number, and its values from the first place on.
fn refused(r: Refusal, out: &mut [u64]) -> u64
    requires { 32 ≤ length out.old }
    ensures code { result ≡ (refusal r out.old).code }
    ensures left { out.new ≡ (refusal r out.old).out }
{
    match r {
        Refusal::Entry(x)
        | Refusal::NegativeEntry(x)
        | Refusal::TextPlace(x)
        | Refusal::Byte(x)
        | Refusal::Erasure(x)
        | Refusal::Token(x) => write(out, 0, &[x]),
        Refusal::Unsound { i, k, r, t } => write(out, 0, &[i, k, r, t]),
        _ => {}
    }
    r.number()
}

// Returns 0 or the refusal's number, and puts the values of the answer into `out`.
pub fn give<T: Reply>(answer: Result<T, Refusal>, out: &mut [u64]) -> u64
    requires { 32 ≤ length out.old }
    ensures code { result ≡ (given T.puts answer out.old).code }
    ensures left { out.new ≡ (given T.puts answer out.old).out }
{
    match answer {
        Ok(x) => {
            x.put(out);
            0
        }
        Err(r) => refused(r, out),
    }
}
