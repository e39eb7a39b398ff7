// Plans to be tried and lists of weights, as the test program passes them on.
use exponent::Shape;

// A plan to be tried: its entries and its sizes, whatever they are.
#[derive(Clone, Copy)]
pub struct Case<'a> {
    pub entries: &'a [i16],
    pub shape: Shape,
}

impl<'a> Case<'a> {
    pub fn new(entries: &'a [i16], rows: usize, cols: usize, lift: usize) -> Case<'a> {
        Case {
            entries,
            shape: Shape { rows, cols, lift },
        }
    }

    // The same entries at another P.
    pub fn at(self, lift: usize) -> Case<'a> {
        Case::new(self.entries, self.shape.rows, self.shape.cols, lift)
    }
}

// How many blocks of each row and of each column are filled.
#[derive(Clone, Copy)]
pub struct Weights<'a> {
    pub rows: &'a [u16],
    pub cols: &'a [u16],
}

impl<'a> Weights<'a> {
    pub fn new(rows: &'a [u16], cols: &'a [u16]) -> Weights<'a> {
        Weights { rows, cols }
    }
}

// A plan of R rows and C columns with N entries, and its weights.
#[derive(Clone, Copy)]
pub struct Weighed<const N: usize, const R: usize, const C: usize> {
    pub entries: [i16; N],
    pub rows: [u16; R],
    pub cols: [u16; C],
}

impl<const N: usize, const R: usize, const C: usize> Weighed<N, R, C> {
    pub fn zeros() -> Weighed<N, R, C> {
        Weighed {
            entries: [0; N],
            rows: [0; R],
            cols: [0; C],
        }
    }

    // The plan at a P.
    pub fn plan(&self, lift: usize) -> Case<'_> {
        Case::new(&self.entries, R, C, lift)
    }

    pub fn weights(&self) -> Weights<'_> {
        Weights::new(&self.rows, &self.cols)
    }
}
