ghost use Rattle.std.specs.Prelude.{◌+◌, ◌*◌, ◌<◌, ◌≤◌, length};
ghost use Rattle.graph.specs.Graph.{bits_of};
ghost use Rattle.exponent.specs.Graphs.{graph, checks_of};
ghost use Rattle.syndrome.specs.Scan.{Scanned, IsWord, AddedBit, AddedBlock, Shifted};

use exponent::block::Block;
use exponent::position;
use index::rows::Rows;

// What a scan of a check's bits found: how many are erasures, the sum of the bytes, and an erasure, if there is one.
// Stays: `erased` says whether there is one; an Option in place of `at` would say it twice.
#[derive(Clone, Copy, Debug, PartialEq, Eq)]
pub struct Scan {
    pub erased: usize,
    pub sum: usize,
    pub at: usize,
}

impl Scan {
    // The scan with the byte x of bit `at` more.
    fn add_bit(self, x: u8, at: usize) -> Scan
        requires { (self.erased < 65536) × (self.sum < 65536 * 256) }
        ensures { AddedBit self x at result }
    {
        if x == 2 {
            Scan {
                erased: self.erased + 1,
                sum: self.sum + 2,
                at,
            }
        } else {
            Scan {
                sum: self.sum + x as usize,
                ..self
            }
        }
    }

    // The scan with the bit more that row y of block b in column j joins.
    #[tactic(auto, unfolding(crate::specs::Scan::Shifted))]
    fn add_block(self, b: Block, lift: usize, y: usize, j: usize, word: &[u8]) -> Scan
        requires { Shifted b lift × (y < lift) × (lift ≤ 4096) × (j * lift + lift ≤ length word.now) × (self.erased < 65536) × (self.sum < 65536 * 256) }
        ensures { AddedBlock word.now b lift y j self result }
    {
        if let Block::Shift(e) = b {
            let at = j * lift + position::wrap(y + e, lift);
            self.add_bit(word[at], at)
        } else {
            self
        }
    }
}

// What the bits of check c hold, over the filled blocks of its row.
pub fn scan_check(rows: &Rows, c: usize, word: &[u8]) -> Scan
    requires { IsWord rows.now.plan word.now × (c < checks_of rows.now.plan) }
    ensures { Scanned word.now (bits_of (graph rows.now.plan) c) result }
{
    let lift = rows.plan.shape.lift;
    let i = c / lift;
    let y = c % lift;
    let mut s = Scan {
        erased: 0,
        sum: 0,
        at: 0,
    };
    let mut from = 0;
    while let Some(j) = rows.next(i, from) {
        s = s.add_block(rows.plan.block_at(i, j), lift, y, j, word);
        from = j + 1;
    }
    s
}
