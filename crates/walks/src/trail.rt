ghost use Rattle.std.specs.Prelude.{◌≡◌, ◌/◌, length};
ghost use Rattle.walks.specs.Ways.{odd};
ghost use Rattle.walks.specs.Trail.{places, in_front, left_out, push, pop, no_trail, back_trail, join_trail};

// The places for checks, and for bits.
pub const PLACES: usize = 8;

// A way: the bit at its end, its checks, and the bit after each; 0 in the places not used.
#[derive(Clone, Copy, Debug, PartialEq, Eq)]
pub struct Trail {
    pub end: usize,
    pub checks: [usize; PLACES],
    pub bits: [usize; PLACES],
}

// A number in front of the others, of which the last goes.
fn put_in_front(list: &mut [usize], first: usize)
    requires { length list.old ≡ places }
    ensures { list.new ≡ in_front first list.old }
{
    list.rotate_right(1);
    list[0] = first;
}

// The first number left out.
fn leave_out(list: &mut [usize])
    requires { length list.old ≡ places }
    ensures { list.new ≡ left_out list.old }
{
    list[0] = 0;
    list.rotate_left(1);
}

impl Trail {
    // A way of no checks.
    pub fn empty(end: usize) -> Trail
        ensures { result ≡ no_trail end }
    {
        Trail {
            end,
            checks: [0; PLACES],
            bits: [0; PLACES],
        }
    }

    // One check and the bit after it, in front.
    pub fn push(mut self, check: usize, bit: usize) -> Trail
        ensures { result ≡ push check bit self }
    {
        put_in_front(&mut self.checks, check);
        put_in_front(&mut self.bits, bit);
        self
    }

    // The first check and bit left out.
    pub fn pop(mut self) -> Trail
        ensures { result ≡ pop self }
    {
        leave_out(&mut self.checks);
        leave_out(&mut self.bits);
        self
    }
}

// Back along the d checks of way w to the bit z where it began, and on along another.
fn back_along(d: usize, z: usize, w: Trail, on: Trail) -> Trail
    ensures { result ≡ back_trail d z w on }
{
    let mut bit = z;
    let mut rest = w;
    let mut trail = on;
    for _ in 0..d {
        trail = trail.push(rest.checks[0], bit);
        bit = rest.bits[0];
        rest = rest.pop();
    }
    trail
}

// The cycle of two ways of n edges from one root; z is its number where it is a bit.
pub fn join(n: usize, z: usize, w: Trail, on: Trail) -> Trail
    ensures { result ≡ join_trail (odd n) (n / 2) z w on }
{
    let d = n / 2;
    if n % 2 == 1 {
        back_along(d, w.bits[0], w.pop(), on)
    } else {
        back_along(d, z, w, on)
    }
}
