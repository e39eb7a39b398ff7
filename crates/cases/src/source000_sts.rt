// The degree matrices of source 000, Table VI, girth 14 to 18: columns are the triples of its Example 3, in its order, with a 0 at the
// third point and throughout the first column. What is left, W', stands here as printed there under its base graph and M, behind the
// first column's 0: each of its two rows in three lines, filled up with 0. Each is judged at its printed girth and at the largest target.
ghost use Rattle.std.specs.Prelude.{◌≤◌, ◌<◌};

use crate::plan::Case;
use crate::say::verdicts;
use std::io;
use std::io::Stdout;

// Points count from 0; in the source those of STS(9) count from 1.
const STS_9: [[u8; 3]; 12] = [
    [1, 2, 4],
    [0, 3, 5],
    [0, 2, 6],
    [1, 5, 6],
    [3, 4, 6],
    [0, 1, 7],
    [4, 5, 7],
    [2, 3, 7],
    [0, 4, 8],
    [1, 3, 8],
    [2, 5, 8],
    [6, 7, 8],
];

// S-STS(13) is this without the last row and the last six columns.
const STS_13: [[u8; 3]; 26] = [
    [0, 3, 6],
    [0, 2, 7],
    [1, 5, 7],
    [3, 4, 7],
    [3, 5, 8],
    [1, 4, 8],
    [2, 6, 8],
    [2, 4, 9],
    [5, 6, 9],
    [0, 1, 9],
    [1, 3, 10],
    [0, 4, 10],
    [6, 7, 10],
    [2, 5, 10],
    [8, 9, 10],
    [7, 8, 11],
    [4, 6, 11],
    [1, 2, 11],
    [0, 5, 11],
    [3, 9, 11],
    [10, 11, 12],
    [7, 9, 12],
    [0, 8, 12],
    [1, 6, 12],
    [4, 5, 12],
    [2, 3, 12],
];

// The base graphs.
#[derive(Clone, Copy)]
pub enum Base {
    Sts9,
    ShortSts13,
    Sts13,
}

impl Base {
    pub fn label(self) -> &'static str {
        match self {
            Base::Sts9 => "STS(9)",
            Base::ShortSts13 => "S-STS(13)",
            Base::Sts13 => "STS(13)",
        }
    }

    // Points: the rows of a plan.
    fn rows(self) -> usize
        ensures { result ≤ 13 }
    {
        match self {
            Base::Sts9 => 9,
            Base::ShortSts13 => 12,
            Base::Sts13 => 13,
        }
    }

    // The triples that are columns of a plan.
    fn cols(self) -> usize
        ensures { result ≤ 26 }
    {
        match self {
            Base::Sts9 => 12,
            Base::ShortSts13 => 20,
            Base::Sts13 => 26,
        }
    }

    fn triples(self) -> &'static [[u8; 3]] {
        match self {
            Base::Sts9 => &STS_9,
            Base::ShortSts13 | Base::Sts13 => &STS_13,
        }
    }
}

// A code: its base graph, its M, its girth, and W'.
pub struct Code {
    pub base: Base,
    lift: usize,
    girth: usize,
    w: [[i16; 9]; 6],
}

pub const STS_9_M151: Code = Code {
    base: Base::Sts9,
    lift: 151,
    girth: 14,
    w: [
        [0, 0, 123, 36, 3, 2, 79, 4, 7],
        [52, 4, 1, 0, 0, 0, 0, 0, 0],
        [0, 0, 0, 0, 0, 0, 0, 0, 0],
        [0, 0, 96, 23, 11, 1, 37, 12, 2],
        [61, 1, 4, 0, 0, 0, 0, 0, 0],
        [0, 0, 0, 0, 0, 0, 0, 0, 0],
    ],
};

pub const S_STS_13_M486: Code = Code {
    base: Base::ShortSts13,
    lift: 486,
    girth: 14,
    w: [
        [0, 423, 0, 437, 5, 237, 235, 170, 333],
        [260, 109, 241, 2, 114, 5, 2, 428, 92],
        [228, 299, 0, 0, 0, 0, 0, 0, 0],
        [0, 0, 0, 0, 445, 465, 51, 440, 22],
        [111, 307, 433, 4, 285, 2, 1, 4, 113],
        [282, 5, 0, 0, 0, 0, 0, 0, 0],
    ],
};

const STS_13_M1153: Code = Code {
    base: Base::Sts13,
    lift: 1153,
    girth: 14,
    w: [
        [0, 1037, 0, 1051, 1105, 933, 1027, 962, 1000],
        [665, 805, 646, 2, 906, 5, 2, 1095, 788],
        [633, 913, 264, 51, 772, 672, 686, 737, 0],
        [0, 0, 0, 0, 1112, 1132, 51, 1107, 22],
        [807, 921, 1100, 4, 952, 2, 1, 4, 905],
        [949, 5, 0, 1111, 922, 620, 351, 140, 0],
    ],
};

pub const STS_9_M665: Code = Code {
    base: Base::Sts9,
    lift: 665,
    girth: 16,
    w: [
        [0, 0, 468, 99, 3, 2, 305, 43, 9],
        [251, 3, 2, 0, 0, 0, 0, 0, 0],
        [0, 0, 0, 0, 0, 0, 0, 0, 0],
        [0, 0, 351, 41, 6, 8, 215, 18, 1],
        [79, 1, 8, 0, 0, 0, 0, 0, 0],
        [0, 0, 0, 0, 0, 0, 0, 0, 0],
    ],
};

const S_STS_13_M2562: Code = Code {
    base: Base::ShortSts13,
    lift: 2562,
    girth: 16,
    w: [
        [0, 937, 0, 1551, 1264, 1670, 2119, 1973, 1960],
        [1848, 1223, 1806, 15, 1761, 1, 2, 2175, 1169],
        [1768, 548, 0, 0, 0, 0, 0, 0, 0],
        [0, 0, 0, 0, 2367, 2491, 126, 2296, 66],
        [1197, 582, 2200, 9, 1836, 2, 1, 0, 1757],
        [1833, 4, 0, 0, 0, 0, 0, 0, 0],
    ],
};

pub const STS_9_M2723: Code = Code {
    base: Base::Sts9,
    lift: 2723,
    girth: 18,
    w: [
        [0, 0, 853, 217, 6, 2, 1108, 75, 20],
        [586, 1, 5, 0, 0, 0, 0, 0, 0],
        [0, 0, 0, 0, 0, 0, 0, 0, 0],
        [0, 0, 1797, 97, 3, 4, 485, 33, 37],
        [246, 1, 5, 0, 0, 0, 0, 0, 0],
        [0, 0, 0, 0, 0, 0, 0, 0, 0],
    ],
};

// Writes an entry in the row of a point, where the plan has the place.
fn put(point: u8, cols: usize, j: usize, e: i16, entries: &mut [i16])
    requires { (cols ≤ 26) × (j ≤ 26) }
{
    if let Some(place) = entries.get_mut(usize::from(point) * cols + j) {
        *place = e;
    }
}

// Places enough for the entries of each plan.
pub const PLACES: usize = 338;

impl Code {
    // Column j: two entries as printed, and 0 at the third point.
    fn put_column(&self, j: usize, entries: &mut [i16])
        requires { j < 26 }
    {
        let cols = self.base.cols();
        if let Some(t) = self.base.triples().get(j) {
            put(t[0], cols, j, self.w[j / 9][j % 9], entries);
            put(t[1], cols, j, self.w[3 + j / 9][j % 9], entries);
            put(t[2], cols, j, 0, entries);
        }
    }

    // The entries of the plan, row by row, and -1 behind them.
    pub fn entries(&self) -> [i16; PLACES] {
        let mut entries = [-1i16; PLACES];
        for j in 0..self.base.cols() {
            self.put_column(j, &mut entries);
        }
        entries
    }

    // The plan over its entries.
    pub fn plan<'a>(&self, entries: &'a [i16; PLACES]) -> Case<'a> {
        let rows = self.base.rows();
        let cols = self.base.cols();
        Case::new(&entries[..rows * cols], rows, cols, self.lift)
    }
}

// Judges a code at its girth and at the largest target.
fn judge(out: Stdout, code: &Code) -> io::Result<()> {
    let entries = code.entries();
    let label = code.base.label();
    print!(out; "000 table VI {label}, M = {}: ", code.lift)?;
    verdicts(out, code.plan(&entries), code.girth)?;
    println!(out)
}

pub fn table_six(out: Stdout) -> io::Result<()> {
    for code in [
        &STS_9_M151,
        &S_STS_13_M486,
        &STS_13_M1153,
        &STS_9_M665,
        &S_STS_13_M2562,
        &STS_9_M2723,
    ] {
        judge(out, code)?;
    }
    Ok(())
}
