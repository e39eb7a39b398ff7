ghost use Rattle.std.specs.Prelude.{◌≡◌, ℕ, get_or};
ghost use Rattle.worklist.specs.Work.{unmarked};

// A byte with its mark taken off: a filled bit (4 or 5) becomes the bit where `keep`, else an erasure again.
fn unmark(keep: bool, x: u8) -> u8
    ensures { result ≡ unmarked keep x }
{
    if x < 4 {
        x
    } else if keep {
        x - 4
    } else {
        2
    }
}

// Takes the marks off every byte.
pub fn unmark_all(keep: bool, word: &mut [u8])
    ensures { (b : ℕ) → get_or word.new b 0 ≡ unmarked keep (get_or word.old b 0) }
{
    for x in word.iter_mut() {
        *x = unmark(keep, *x);
    }
}
