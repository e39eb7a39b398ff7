ghost use Rattle.std.specs.Prelude.{◌≡◌, ◌+◌, ◌-◌, ◌*◌, ◌≤◌, min};
ghost use Rattle.planning.specs.Request.{no_digit, number_of};

// Whether a byte is no digit.
fn no_digit(b: u8) -> bool
    ensures { result ≡ no_digit b }
{
    !b.is_ascii_digit()
}

// One digit more, kept at 65,536: a larger number counts for nothing.
fn with_digit(n: usize, b: u8) -> usize
    requires { (n ≤ 65536) × (48 ≤ b) }
    ensures { result ≡ min (n * 10 + (b - 48)) 65536 }
{
    (n * 10 + (b - b'0') as usize).min(65536)
}

// The number of a token, however many digits it has.
#[tactic(auto, using(crate::proofs::Tokens::number_start, crate::proofs::Tokens::wrong_at, crate::proofs::Tokens::digit_at, crate::proofs::Tokens::large_end, crate::proofs::Tokens::small_end))]
pub fn read(token: &[u8]) -> usize
    ensures { result ≡ number_of token.now }
{
    let mut n = 0;
    for &b in token {
        if no_digit(b) {
            return 0;
        }
        n = with_digit(n, b);
    }
    if 65535 < n { 0 } else { n }
}
