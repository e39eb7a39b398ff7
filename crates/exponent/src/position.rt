ghost use Rattle.std.specs.Prelude.{◌≡◌, ◌+◌, ◌%◌, ◌<◌, ◌≤◌};
ghost use Rattle.exponent.specs.Position.{forward, back};

// A walk's position: at bit (col, voltage), come from a check in row `row`; or at check (row, voltage), come from a bit in
// column `col`.
#[derive(Clone, Copy, Debug, PartialEq, Eq)]
pub struct Position {
    pub row: usize,
    pub col: usize,
    pub voltage: usize,
}

impl Position {
    // From a check to its bit in another column, over a block shifted by `shift`.
    pub fn forward(self, col: usize, shift: usize, lift: usize) -> Position
        requires { (self.voltage < lift) × (shift < lift) × (lift ≤ 4096) }
        ensures { result ≡ forward lift self col shift }
    {
        Position {
            row: self.row,
            col,
            voltage: wrap(self.voltage + shift, lift),
        }
    }

    // From a bit to its check in another row, over a block shifted by `shift`.
    pub fn back(self, row: usize, shift: usize, lift: usize) -> Position
        requires { (self.voltage < lift) × (shift < lift) × (lift ≤ 4096) }
        ensures { result ≡ back lift self row shift }
    {
        Position {
            row,
            col: self.col,
            voltage: wrap(self.voltage + (lift - shift), lift),
        }
    }
}

// n modulo the lift, where n is less than twice as much: without a division, for the loops that turn at every block.
pub fn wrap(n: usize, lift: usize) -> usize
    requires { n < lift + lift }
    ensures { result ≡ n % lift }
{
    if n < lift {
        return n;
    }
    n - lift
}
