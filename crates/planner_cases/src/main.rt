// The test program of the planner: what is printed for each input, as its first line and its length, to be compared with the
// stored output.
#![tactic(auto)]

use std::io;
use std::io::Stdout;

// What the planner prints for an input: its first line and its length.
fn case(out: Stdout, label: &str, input: &[u8]) -> io::Result<()> {
    let mut plan = [0i16; 32768];
    let mut place = [0u8; 65536];
    let end = planning::plan_text(input, &mut plan, &mut place);
    let text = &place[..end];
    let line = text.iter().position(|&b| b == b'\n').unwrap_or(end);
    print!(out; "{label}: ")?;
    out.write_all(&text[..line])?;
    println!(out; ", length {end}")
}

// Inputs that are their own labels.
fn numbers(out: Stdout) -> io::Result<()> {
    for input in [
        "4 7", "4 6", "7 100", "6 25", "4 0", "3 9", "7 4097", "65536 7", "65535 7", "4 1025",
    ] {
        case(out, input, input.as_bytes())?;
    }
    Ok(())
}

// Inputs with labels of their own.
fn texts(out: Stdout) -> io::Result<()> {
    for (label, input) in [
        ("empty", ""),
        ("4 alone", "4"),
        ("leading zeros", "0004 0007"),
        ("tab, CR LF", "\t4\r\n7\r\n"),
        ("4x 7", "4x 7"),
        ("4: 7", "4: 7"),
        ("4 /7", "4 /7"),
        ("4 7 9", "4 7 9"),
    ] {
        case(out, label, input.as_bytes())?;
    }
    Ok(())
}

// Tokens of many digits.
fn long_tokens(out: Stdout) -> io::Result<()> {
    case(out, "J of 300 digits", &[b'1'; 300])?;
    let mut lift = [b'0'; 202];
    lift[0] = b'4';
    lift[1] = b' ';
    lift[201] = b'7';
    case(out, "P of 200 digits, 0 to the last, 7", &lift)?;
    lift[2] = b'1';
    case(out, "P of 200 digits, the first 1", &lift)
}

// Tokens at the edge of the first 256 bytes.
fn edge(out: Stdout) -> io::Result<()> {
    let mut both = [b' '; 260];
    both[256] = b'4';
    both[258] = b'7';
    case(out, "4 7 from byte 256 on", &both)?;
    let mut second = [b' '; 260];
    second[0] = b'4';
    second[256] = b'7';
    case(out, "4, and 7 at byte 256", &second)?;
    second[255] = b'7';
    case(out, "4, and 77 at byte 255", &second)
}

fn main(rt: HostRuntime) -> io::Result<()> {
    let out = rt.stdout();
    numbers(out)?;
    texts(out)?;
    long_tokens(out)?;
    edge(out)
}
