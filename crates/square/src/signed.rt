ghost use Rattle.std.specs.Prelude.{◌≡◌, ◌<◌};
ghost use Rattle.square.specs.Table.{signed, block};

// An entry of a table: a natural number, or none where it is negative. No other function reads an entry of a table.
pub fn entry(e: i16) -> Option<usize>
    ensures { result ≡ signed e }
{
    usize::try_from(e).ok()
}

// A filled block's entry, or −1. No other function makes the signed numbers that the library writes.
pub fn make(filled: bool, e: usize) -> i16
    requires { e < 4096 }
    ensures { result ≡ block filled e }
{
    if filled { e as i16 } else { -1 }
}
