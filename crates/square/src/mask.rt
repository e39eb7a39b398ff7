ghost use Rattle.std.specs.Prelude.{◌≡◌, ℕ, ◌+◌, ◌*◌, ◌<◌, eqb, ltb, length};
ghost use Rattle.refusal.specs.Place.{somewhere};
ghost use Rattle.graph.specs.Count.{below, count};
ghost use Rattle.square.specs.Mask.{row_ones, common};
ghost use Rattle.square.specs.Inner.{Lines, line_ones};

// No common weight is less.
const LEAST: usize = 4;

// Whether some byte is above 1.
pub fn above_one(mask: &[u8]) -> bool
    ensures { result ≡ somewhere (ltb 1) mask.now }
{
    mask.iter().any(|&byte| 1 < byte)
}

// How many of the bytes at from, from + step, … are 1; there are `order` of them.
pub fn count_ones(mask: &[u8], order: usize, from: usize, step: usize) -> usize
    requires { (order < 8) × (step < 8) × (from < 64) × ((k : ℕ) → k < order → from + k * step < length mask.now) }
    ensures { result ≡ line_ones order mask.now from step }
{
    (0..order).filter(|&k| mask[from + k * step] == 1).count()
}

// How many of the lines that begin at 0, across, 2 × across, … and go on by `step` have exactly `weight` ones.
fn lines_of(mask: &[u8], order: usize, across: usize, step: usize, weight: usize) -> usize
    requires { Lines order mask.now across step }
    ensures { result ≡ count (λ j. eqb (line_ones order mask.now (j * across) step) weight) (below order) }
{
    (0..order)
        .filter(|&j| count_ones(mask, order, j * across, step) == weight)
        .count()
}

// Whether the ones of the first row are at least 4, and each row and each column has as many.
pub fn common(mask: &[u8], order: usize, weight: usize) -> bool
    requires { (0 < order) × (order < 8) × (length mask.now ≡ order * order) × (weight ≡ row_ones order mask.now 0) }
    ensures { result ≡ common order mask.now }
{
    LEAST <= weight
        && lines_of(mask, order, order, 1, weight) == order
        && lines_of(mask, order, 1, order, weight) == order
}
