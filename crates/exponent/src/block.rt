ghost use Rattle.std.specs.Prelude.{◌≡◌, ◌+◌, ◌*◌, ◌%◌, ◌<◌, length};
ghost use Rattle.exponent.specs.Plan.{block_of, entry_at, block_at, is_invalid, filled, shift_of};

// A block of the matrix: the zero block (document 01: empty), the identity shifted right (filled), or an entry that is neither.
#[derive(Clone, Copy, Debug, PartialEq, Eq)]
pub enum Block {
    Zero,
    Shift(usize),
    Invalid,
}

impl Block {
    // Whether an entry is neither a zero block nor a shift.
    pub fn is_invalid(self) -> bool
        ensures { result ≡ is_invalid self }
    {
        matches!(self, Block::Invalid)
    }

    // Whether a block is filled.
    pub fn is_filled(self) -> bool
        ensures { result ≡ filled self }
    {
        matches!(self, Block::Shift(_))
    }

    // The shift of a filled block, and 0 of another one.
    pub fn shift_or_zero(self) -> usize
        ensures { result ≡ shift_of self }
    {
        match self {
            Block::Shift(e) => e,
            Block::Zero | Block::Invalid => 0,
        }
    }
}

// The remainder of a voltage by the lift, without a division where it is below the lift. By 0, which is no plan's lift, it is the voltage.
fn remainder(e: usize, lift: usize) -> usize
    ensures { result ≡ e % lift }
{
    if e < lift || lift == 0 { e } else { e % lift }
}

// What an entry says. No other function reads an entry of a plan.
pub fn entry(e: i16, lift: usize) -> Block
    ensures { result ≡ block_of lift e }
{
    match e {
        0.. => Block::Shift(remainder(e as usize, lift)),
        -1 => Block::Zero,
        _ => Block::Invalid,
    }
}

// The entry at a place of the list.
#[tactic(auto, unfolding(crate::specs::Plan::entry_at))]
pub fn entry_at(plan: &[i16], lift: usize, place: usize) -> Block
    requires { place < length plan.now }
    ensures { result ≡ entry_at plan.now lift place }
{
    entry(plan[place], lift)
}

// The block in row i and column j.
#[tactic(auto, unfolding(crate::specs::Plan::block_at))]
pub fn block_at(plan: &[i16], cols: usize, lift: usize, i: usize, j: usize) -> Block
    requires { i * cols + j < length plan.now }
    ensures { result ≡ block_at plan.now cols lift i j }
{
    entry_at(plan, lift, i * cols + j)
}
