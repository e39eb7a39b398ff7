// The degree matrices of source 000, Tables II to V: 3 rows and K columns, with zeros in the first column and the last
// row. What is left, W', stands here as printed there, under its table and M; K is one more than the length of its rows.
// Each is judged at its printed girth and, where that is below the largest target, there; then with P lowered.
ghost use Rattle.std.specs.Prelude.{◌≤◌};

use crate::lowered::lowered;
use crate::plan::Case;
use crate::say::verdicts;
use std::io;
use std::io::Stdout;

// A code: its M, and W'.
#[derive(Clone, Copy)]
pub struct Code {
    pub lift: usize,
    pub rows: [&'static [i16]; 2],
}

pub const II_K7_M7: Code = Code {
    lift: 7,
    rows: [&[1, 2, 3, 4, 5, 6], &[3, 5, 2, 1, 6, 4]],
};

pub const II_K4_M23: Code = Code {
    lift: 23,
    rows: [&[1, 2, 4], &[5, 3, 12]],
};

pub const II_K5_M49: Code = Code {
    lift: 49,
    rows: [&[1, 3, 10, 14], &[40, 31, 33, 30]],
};

pub const III_K4_M9: Code = Code {
    lift: 9,
    rows: [&[1, 4, 6], &[5, 2, 3]],
};

pub const IV_K5_M61: Code = Code {
    lift: 61,
    rows: [&[2, 20, 54, 60], &[26, 16, 31, 48]],
};

pub const V_K5_M163: Code = Code {
    lift: 163,
    rows: [&[5, 33, 42, 117], &[36, 35, 25, 57]],
};

pub const V_K7_M566: Code = Code {
    lift: 566,
    rows: [&[3, 10, 33, 147, 297, 442], &[31, 22, 4, 93, 133, 219]],
};

// A table's codes of one kind, and their girth.
struct Table {
    label: &'static str,
    girth: usize,
    codes: &'static [Code],
}

const TABLES: [Table; 7] = [
    Table {
        label: "II short",
        girth: 6,
        codes: &[
            Code {
                lift: 5,
                rows: [&[1, 2, 4], &[3, 1, 2]],
            },
            Code {
                lift: 5,
                rows: [&[1, 2, 3, 4], &[3, 1, 4, 2]],
            },
            Code {
                lift: 7,
                rows: [&[1, 2, 3, 4, 6], &[3, 5, 2, 1, 4]],
            },
            II_K7_M7,
            Code {
                lift: 9,
                rows: [&[1, 2, 3, 4, 5, 7, 8], &[3, 6, 2, 1, 8, 5, 4]],
            },
            Code {
                lift: 9,
                rows: [&[1, 2, 3, 4, 5, 6, 7, 8], &[3, 6, 2, 1, 8, 7, 5, 4]],
            },
            Code {
                lift: 11,
                rows: [&[1, 2, 3, 4, 5, 6, 8, 9, 10], &[3, 1, 7, 2, 10, 9, 4, 6, 5]],
            },
            Code {
                lift: 11,
                rows: [
                    &[1, 2, 3, 4, 5, 6, 7, 8, 9, 10],
                    &[3, 1, 7, 2, 10, 9, 8, 4, 6, 5],
                ],
            },
            Code {
                lift: 13,
                rows: [
                    &[1, 2, 3, 4, 5, 6, 7, 8, 10, 11, 12],
                    &[3, 1, 8, 2, 9, 12, 4, 11, 5, 7, 6],
                ],
            },
        ],
    },
    Table {
        label: "II large distance",
        girth: 6,
        codes: &[
            II_K4_M23,
            II_K5_M49,
            Code {
                lift: 69,
                rows: [&[3, 4, 21, 26, 67], &[34, 15, 64, 33, 44]],
            },
            Code {
                lift: 109,
                rows: [&[1, 3, 11, 15, 45, 93], &[101, 34, 18, 9, 1, 4]],
            },
            Code {
                lift: 153,
                rows: [&[2, 10, 26, 57, 89, 4, 49], &[22, 19, 5, 23, 61, 90, 123]],
            },
        ],
    },
    Table {
        label: "III short",
        girth: 8,
        codes: &[
            III_K4_M9,
            Code {
                lift: 13,
                rows: [&[1, 3, 7, 11], &[10, 4, 5, 6]],
            },
            Code {
                lift: 18,
                rows: [&[2, 3, 5, 7, 9], &[4, 6, 13, 1, 16]],
            },
            Code {
                lift: 21,
                rows: [&[2, 3, 8, 15, 17, 20], &[4, 6, 7, 9, 12, 13]],
            },
            Code {
                lift: 25,
                rows: [&[1, 3, 4, 10, 14, 15, 19], &[5, 6, 11, 24, 2, 9, 12]],
            },
            Code {
                lift: 30,
                rows: [
                    &[1, 3, 10, 16, 23, 25, 26, 28],
                    &[2, 6, 5, 9, 8, 12, 14, 22],
                ],
            },
            Code {
                lift: 35,
                rows: [
                    &[2, 6, 7, 18, 19, 26, 29, 31, 34],
                    &[4, 5, 3, 13, 10, 16, 12, 11, 23],
                ],
            },
            Code {
                lift: 41,
                rows: [
                    &[1, 4, 8, 20, 27, 28, 29, 33, 39, 40],
                    &[5, 7, 6, 9, 10, 19, 13, 21, 14, 35],
                ],
            },
            Code {
                lift: 47,
                rows: [
                    &[3, 7, 8, 22, 24, 27, 29, 35, 40, 41, 43],
                    &[6, 2, 4, 5, 14, 16, 1, 21, 28, 9, 34],
                ],
            },
        ],
    },
    Table {
        label: "III large distance",
        girth: 8,
        codes: &[
            Code {
                lift: 29,
                rows: [&[3, 14, 21], &[7, 1, 17]],
            },
            Code {
                lift: 45,
                rows: [&[1, 3, 10, 14], &[40, 31, 33, 30]],
            },
            Code {
                lift: 72,
                rows: [&[3, 4, 21, 26, 67], &[34, 15, 64, 33, 44]],
            },
            Code {
                lift: 111,
                rows: [&[3, 11, 15, 45, 93, 110], &[34, 18, 9, 1, 4, 101]],
            },
            Code {
                lift: 160,
                rows: [&[2, 4, 10, 26, 49, 57, 89], &[22, 90, 19, 5, 123, 23, 61]],
            },
            Code {
                lift: 154,
                rows: [
                    &[6, 9, 26, 65, 79, 99, 124, 153],
                    &[24, 16, 14, 1, 46, 62, 137, 84],
                ],
            },
        ],
    },
    Table {
        label: "IV short",
        girth: 10,
        codes: &[
            Code {
                lift: 37,
                rows: [&[1, 14, 17], &[11, 6, 2]],
            },
            IV_K5_M61,
            Code {
                lift: 101,
                rows: [&[2, 24, 25, 54, 85], &[21, 15, 11, 8, 59]],
            },
            Code {
                lift: 159,
                rows: [&[2, 14, 27, 67, 97, 130], &[21, 24, 1, 6, 75, 58]],
            },
            Code {
                lift: 219,
                rows: [&[3, 14, 26, 63, 96, 128, 183], &[24, 6, 19, 46, 4, 77, 107]],
            },
            Code {
                lift: 319,
                rows: [
                    &[6, 9, 26, 65, 99, 153, 233, 278],
                    &[24, 16, 14, 1, 62, 84, 200, 137],
                ],
            },
            Code {
                lift: 430,
                rows: [
                    &[9, 11, 26, 67, 101, 161, 233, 302, 395],
                    &[23, 5, 1, 54, 33, 96, 120, 104, 244],
                ],
            },
            Code {
                lift: 560,
                rows: [
                    &[2, 11, 25, 62, 101, 162, 225, 268, 421, 492],
                    &[24, 21, 5, 55, 6, 59, 178, 132, 204, 311],
                ],
            },
            Code {
                lift: 737,
                rows: [
                    &[2, 22, 23, 63, 101, 147, 219, 322, 412, 569, 601],
                    &[16, 9, 6, 58, 34, 91, 126, 155, 185, 298, 232],
                ],
            },
        ],
    },
    Table {
        label: "IV large distance",
        girth: 10,
        codes: &[Code {
            lift: 44,
            rows: [&[1, 14, 17], &[11, 6, 2]],
        }],
    },
    Table {
        label: "V short",
        girth: 12,
        codes: &[
            Code {
                lift: 73,
                rows: [&[2, 25, 33], &[18, 6, 5]],
            },
            V_K5_M163,
            Code {
                lift: 310,
                rows: [&[1, 24, 38, 145, 246], &[16, 36, 5, 82, 110]],
            },
            Code {
                lift: 306,
                rows: [&[9, 36, 38, 154, 204], &[33, 1, 13, 54, 123]],
            },
            V_K7_M566,
            Code {
                lift: 848,
                rows: [
                    &[4, 24, 31, 143, 303, 498, 652],
                    &[32, 9, 6, 70, 130, 193, 222],
                ],
            },
            Code {
                lift: 1376,
                rows: [
                    &[4, 20, 32, 160, 284, 569, 794, 1133],
                    &[30, 7, 1, 92, 169, 350, 437, 645],
                ],
            },
            Code {
                lift: 2103,
                rows: [
                    &[6, 13, 28, 150, 291, 565, 678, 1258, 1600],
                    &[30, 16, 5, 64, 225, 207, 491, 838, 746],
                ],
            },
            Code {
                lift: 3137,
                rows: [
                    &[9, 11, 24, 150, 306, 508, 666, 1279, 1765, 1958],
                    &[31, 28, 1, 83, 131, 160, 429, 550, 956, 1391],
                ],
            },
            Code {
                lift: 4730,
                rows: [
                    &[3, 15, 22, 140, 286, 537, 811, 1113, 1878, 2524, 3349],
                    &[31, 26, 1, 66, 95, 210, 373, 729, 878, 1365, 1644],
                ],
            },
        ],
    },
];

// Writes a row of W' into a row of a plan.
fn put_row(row: &[i16], place: &mut [i16]) {
    for (entry, e) in place.iter_mut().zip(row) {
        *entry = *e;
    }
}

impl Code {
    // K, at most 12.
    pub fn cols(self) -> usize
        ensures { (1 ≤ result) × (result ≤ 12) }
    {
        self.rows[0].len().min(11) + 1
    }

    // The entries of the plan, row by row, and zeros behind them.
    pub fn entries(self) -> [i16; 36] {
        let cols = self.cols();
        let mut entries = [0i16; 36];
        put_row(self.rows[0], &mut entries[1..cols]);
        put_row(self.rows[1], &mut entries[cols + 1..2 * cols]);
        entries
    }

    // The plan over its entries.
    pub fn plan<'a>(self, entries: &'a [i16; 36]) -> Case<'a> {
        let cols = self.cols();
        Case::new(&entries[..3 * cols], 3, cols, self.lift)
    }
}

// Judges a code at its girth and at the largest target, then with P lowered.
fn judge(out: Stdout, label: &str, girth: usize, code: Code) -> io::Result<()> {
    let entries = code.entries();
    let plan = code.plan(&entries);
    print!(out;
        "000 table {label}, K = {}, M = {}: ",
        plan.shape.cols, plan.shape.lift
    )?;
    verdicts(out, plan, girth)?;
    lowered(out, plan)?;
    println!(out)
}

pub fn tables(out: Stdout) -> io::Result<()> {
    for table in &TABLES {
        for code in table.codes {
            judge(out, table.label, table.girth, *code)?;
        }
    }
    Ok(())
}
