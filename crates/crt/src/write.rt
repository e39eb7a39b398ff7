ghost use Rattle.std.specs.Prelude.{◌≡◌, ◌<◌, length};
ghost use Rattle.crt.specs.Remainders.{remainders};
ghost use Rattle.crt.specs.Join.{joined_plan};
ghost use Rattle.crt.specs.Work.{Lifts};

use exponent::block;
use square::signed;

// The number below p × q that leaves the remainder of e by p and that of f by q: e, and a multiple of the unit, which p divides.
fn remainder(e: usize, f: usize, p: usize, q: usize, unit: usize) -> usize
    requires { Lifts p q unit × (e < 4096) × (f < 4096) }
    ensures { (result ≡ remainders p q e f) × (result < 4096) }
{
    (e + unit * (f + (q - e % q))) % (p * q)
}

// Writes the joined plan, one step an entry.
pub fn write(first: &[i16], p: usize, second: &[i16], q: usize, unit: usize, joined: &mut [i16])
    requires { Lifts p q unit × (length first.now ≡ length second.now) × (length joined.old ≡ length first.now) }
    ensures { joined.new ≡ joined_plan first.now p second.now q }
{
    for place in 0..first.len() {
        let a = block::entry_at(first, p, place);
        let b = block::entry_at(second, q, place);
        let e = remainder(a.shift_or_zero(), b.shift_or_zero(), p, q, unit);
        joined[place] = signed::make(a.is_filled(), e);
    }
}
