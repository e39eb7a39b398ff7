ghost use Rattle.std.specs.Prelude.{◌≤◌};
ghost use Rattle.crt.specs.Work.{Finds};

// The unit: the multiple of p, from 0 on, that leaves 1 by q. There is none where the sizes share a divisor.
pub fn find(p: usize, q: usize) -> Option<usize>
    requires { (1 ≤ p) × (1 ≤ q) × (p ≤ 4096) × (q ≤ 4096) }
    ensures { Finds p q result }
{
    let one = 1 % q;
    for k in 0..q {
        let u = p * k;
        if u % q == one {
            return Some(u);
        }
    }
    None
}
