// Eight bytes of a word as one number, the first lowest, so that the erasures among them are counted together.
ghost use Rattle.std.specs.Prelude.{◌≡◌};
ghost use Rattle.std.specs.Int.Count.{ones};
ghost use Rattle.graph.specs.Filling.{erasures};
ghost use Rattle.syndrome.specs.Lanes.{bytes_of};

// The byte 2 in each place.
const TWOS: u64 = 0x0202_0202_0202_0202;

// The seven low bits of each byte.
const LOWS: u64 = 0x7f7f_7f7f_7f7f_7f7f;

// The top bit of each byte.
const TOPS: u64 = 0x8080_8080_8080_8080;

// The top bit of each of the eight bytes of x that is an erasure. There y has a 0; elsewhere t has the top bit, from the sum (at
// most 254, so that nothing is carried into the next byte) or from y itself.
fn flags(x: u64) -> u64
    ensures { ones result ≡ erasures (bytes_of 8 x) }
{
    let y = x ^ TWOS;
    let t = ((y & LOWS) + LOWS) | y;
    (t & TOPS) ^ TOPS
}

// How many of eight bytes are erasures.
pub fn count(eight: &[u8; 8]) -> usize
    ensures { result ≡ erasures eight.now }
{
    flags(u64::from_le_bytes(*eight)).count_ones() as usize
}
