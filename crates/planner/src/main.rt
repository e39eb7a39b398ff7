// The program of document 01: reads J and P from standard input, and prints the alist of the cyclic plan or the line of a refusal.
// What it prints is the contract of `planning::plan_text`.
#![tactic(auto)]

ghost use Rattle.std.specs.Prelude.{◌≤◌, length, IfOk};

use std::io;
use std::io::{Read, Stdin};

// Reads until the list is full or the input ends, and returns how many bytes it put at the list's start.
// Stays: a loop over `read`, since the calls of std that read until the input ends need an allocator.
fn read_full(mut input: Stdin, list: &mut [u8]) -> io::Result<usize>
    ensures { IfOk result (λ n. n ≤ length list.new) }
{
    let mut n = 0;
    while n < list.len() {
        let count = input.read(&mut list[n..])?;
        if count == 0 {
            break;
        }
        n += count;
    }
    Ok(n)
}

fn main(rt: HostRuntime) -> io::Result<()> {
    let mut input = [0u8; 256];
    let mut plan = [0i16; 32768];
    let mut text = [0u8; 65536];
    let n = read_full(rt.stdin(), &mut input)?;
    let end = planning::plan_text(&input[..n], &mut plan, &mut text);
    rt.write_all(&text[..end])
}
