#![tactic(auto)]

ghost use Rattle.std.specs.Prelude.{◌≡◌};
ghost use Rattle.refusal.specs.Number.{number};

// Why a call turns its caller away: one case for each number of documents 01 and 02, "Turned away", with the values it carries.
// Places count from 0. `number` and `values` of specs/Number.antt give the document's number and values.
#[derive(Clone, Copy, Debug, PartialEq, Eq)]
pub enum Refusal {
    // 1 to 6: the plan designer.
    Rows,
    Cols,
    Lift,
    Bits,
    PlanLength,
    Entry(usize),
    // 7 to 10: the table maker.
    Order,
    TableLength,
    NegativeEntry(usize),
    Unsound {
        i: usize,
        k: usize,
        r: usize,
        t: usize,
    },
    // 11 to 13: the mask maker.
    MaskByte,
    MaskWeight,
    TableBits,
    // 14: the plan designer again.
    Target,
    // 15 to 17: the caller who lends memory.
    PlanPlace,
    WordLength,
    TextPlace(usize),
    // 18 to 20: the film reader.
    Byte(usize),
    Erasure(usize),
    NoSolution,
    // 21: the sender of a text.
    Token(usize),
    // 22 and 23: who asks for a Steiner triple plan.
    SteinerOrder,
    SteinerLength,
    // 24 and 25: the designer who changes a block, and lends lists of weights.
    BlockPlace,
    Weights,
    // 26: the caller who lends a work list.
    WorkPlace,
    // 27 to 29: the designer who joins two plans, and lends a place for the joined one.
    SharedDivisor,
    PlansDiffer,
    JoinedPlace,
    // 30 and 31: who has data encoded.
    NotBidiagonal,
    DataBits,
    // 32: who has bits turned.
    ColumnWeight,
}

impl Refusal {
    // The document's number of a refusal.
    pub fn number(self) -> u64
        ensures { result ≡ number self }
    {
        match self {
            Refusal::Rows => 1,
            Refusal::Cols => 2,
            Refusal::Lift => 3,
            Refusal::Bits => 4,
            Refusal::PlanLength => 5,
            Refusal::Entry(_) => 6,
            Refusal::Order => 7,
            Refusal::TableLength => 8,
            Refusal::NegativeEntry(_) => 9,
            Refusal::Unsound { .. } => 10,
            Refusal::MaskByte => 11,
            Refusal::MaskWeight => 12,
            Refusal::TableBits => 13,
            Refusal::Target => 14,
            Refusal::PlanPlace => 15,
            Refusal::WordLength => 16,
            Refusal::TextPlace(_) => 17,
            Refusal::Byte(_) => 18,
            Refusal::Erasure(_) => 19,
            Refusal::NoSolution => 20,
            Refusal::Token(_) => 21,
            Refusal::SteinerOrder => 22,
            Refusal::SteinerLength => 23,
            Refusal::BlockPlace => 24,
            Refusal::Weights => 25,
            Refusal::WorkPlace => 26,
            Refusal::SharedDivisor => 27,
            Refusal::PlansDiffer => 28,
            Refusal::JoinedPlace => 29,
            Refusal::NotBidiagonal => 30,
            Refusal::DataBits => 31,
            Refusal::ColumnWeight => 32,
        }
    }
}
