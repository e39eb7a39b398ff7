// The plan of a table and a mask (document 01, "Table plans"; source document 004): its rows, its columns, and the entry at both.
#![tactic(auto)]

ghost use Rattle.std.specs.Prelude.{◌≡◌, ◌<◌, ◌≤◌, eqb};
ghost use Rattle.square.specs.Table.{table_at};
ghost use Rattle.square.specs.Inner.{Square};
ghost use Rattle.grid.specs.Plan.{row_at, shift_at, meets, entry};
ghost use Rattle.grid.specs.Inner.{Within, column, keeps};

use square::{search, signed};

// The three parts of the rows: pairs (a, j), pairs (a, r), pairs (j, r).
#[derive(Clone, Copy, Debug, PartialEq, Eq)]
pub enum Part {
    AJ,
    AR,
    JR,
}

// A row: its part, and its pair.
#[derive(Clone, Copy, Debug, PartialEq, Eq)]
pub struct Row {
    pub part: Part,
    pub one: usize,
    pub two: usize,
}

// A column is a triple.
#[derive(Clone, Copy, Debug, PartialEq, Eq)]
pub struct Column {
    pub a: usize,
    pub j: usize,
    pub r: usize,
}

// The three numbers that n is written with to the base order.
pub fn column_of(order: usize, n: usize) -> Column
    requires { 0 < order }
    ensures { result ≡ column order n }
{
    let x = n / order;
    Column {
        a: x / order,
        j: x % order,
        r: n % order,
    }
}

// The column's row in a part.
pub fn row_at(part: Part, q: Column) -> Row
    ensures { result ≡ row_at part q }
{
    let (one, two) = match part {
        Part::AJ => (q.a, q.j),
        Part::AR => (q.a, q.r),
        Part::JR => (q.j, q.r),
    };
    Row { part, one, two }
}

// The number that stands there.
pub fn shift_at(table: &[i16], order: usize, part: Part, q: Column) -> usize
    requires { Square order table.now × Within order q }
    ensures { result ≡ shift_at order (table_at order table.now) part q }
{
    match part {
        Part::AJ => search::table_at(table, order, q.j, q.r),
        Part::AR => 0,
        Part::JR => search::table_at(table, order, q.a, (q.r + q.j) % order),
    }
}

// Whether row w is the column's row in its part.
pub fn meets(w: Row, q: Column) -> bool
    ensures { result ≡ meets w q }
{
    w == row_at(w.part, q)
}

// The entry in row w and column q.
pub fn entry(table: &[i16], order: usize, lift: usize, w: Row, q: Column) -> i16
    requires { Square order table.now × (0 < lift) × (lift ≤ 4096) × Within order q }
    ensures { result ≡ entry order lift (table_at order table.now) w q }
{
    signed::make(meets(w, q), shift_at(table, order, w.part, q) % lift)
}

// Whether a part has a row, where the mask's byte at the row's pair is m.
pub fn keeps(part: Part, m: u8) -> bool
    ensures { result ≡ keeps part (eqb m 1) }
{
    match part {
        Part::AJ | Part::AR => true,
        Part::JR => m == 1,
    }
}
