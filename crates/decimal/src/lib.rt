// Numbers in decimal (document 01, "alist text"), written into a lent text where there is room.
#![tactic(auto)]

ghost use Rattle.std.specs.Prelude.{◌≡◌, [], ◌∷◌, ◌+◌, ◌/◌, ◌%◌, ◌<◌, ◌^◌, length};
ghost use Rattle.writing.specs.Wrote.{Wrote};
ghost use Rattle.decimal.specs.Decimal.{digit, decimal};

// Writes a byte where there is room, and returns the next place.
pub fn put_byte(text: &mut [u8], at: usize, b: u8) -> usize
    requires { at + 1 < 2 ^ 64 }
    ensures { Wrote text.old at (b ∷ []) result text.new }
{
    if at < text.len() {
        text[at] = b;
    }
    at + 1
}

// How many digits a number has.
#[tactic(auto, using(crate::proofs::Digits::length_by_power, crate::proofs::Digits::length_small))]
fn digit_count(n: usize) -> usize
    ensures { result ≡ length (decimal n) }
{
    n.checked_ilog10().map_or(1, |power| power as usize + 1)
}

// Writes the two digits of a number below 100.
fn put_two(text: &mut [u8], at: usize, n: usize) -> usize
    requires { (n < 100) × (at + 2 < 2 ^ 64) }
    ensures { Wrote text.old at (digit (n / 10) ∷ digit (n % 10) ∷ []) result text.new }
{
    let next = put_byte(text, at, b'0' + (n / 10) as u8);
    put_byte(text, next, b'0' + (n % 10) as u8)
}

// Writes a number in decimal: the digits of its hundredth, and its last two. Past the end its digits are only counted.
#[tactic(auto, using(writing::proofs::Wrote::wrote_past, crate::proofs::Digits::decimal_small, crate::proofs::Digits::decimal_two, crate::proofs::Digits::length_hundred))]
pub fn put_number(text: &mut [u8], at: usize, n: usize) -> usize
    requires { at + length (decimal n) < 2 ^ 64 }
    ensures { Wrote text.old at (decimal n) result text.new }
{
    if text.len() <= at {
        at + digit_count(n)
    } else if n < 10 {
        put_byte(text, at, b'0' + n as u8)
    } else if n < 100 {
        put_two(text, at, n)
    } else {
        let next = put_number(text, at, n / 100);
        put_two(text, next, n % 100)
    }
}
