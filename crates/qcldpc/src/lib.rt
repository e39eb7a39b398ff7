// The C interface of the library, for Rust and C: `rt lib` in this folder makes out/libqcldpc.a.
// Each function returns 0, or the number of a refusal (documents 01 and 02), and puts values into `out` (specs/Door.antt).
#![tactic(auto)]

ghost use Rattle.std.specs.Prelude.{◌≡◌, ℕ, ◌*◌, ⊤, Bool, Option, length};
ghost use Rattle.refusal.specs.Answer.{ok_unless, outcome};
ghost use Rattle.refusal.specs.Lowest.{lowest};
ghost use Rattle.graph.specs.Filling.{erasures};
ghost use Rattle.exponent.specs.Limits.{plan_rules};
ghost use Rattle.exponent.specs.declared.Shape.{Shape};
ghost use Rattle.girth.specs.declared.Cycle.{Cycle};
ghost use Rattle.girth.specs.Test.{Answer};
ghost use Rattle.treetest.specs.Answer as pairs;
ghost use Rattle.syndrome.specs.Check.{syndrome_of};
ghost use Rattle.peeling.specs.declared.Filling.{Filling};
ghost use Rattle.peeling.specs.Fill.{fill_answer, fill_word, Previews};
ghost use Rattle.square.specs.declared.supply.Family.TheVariants.{Array, Cyclic};
ghost use Rattle.square.specs.Table.{supplied_table};
ghost use Rattle.refusal.specs.Lent.{lent};
ghost use Rattle.weights.specs.Weights.{held};
ghost use Rattle.weights.specs.Change.{call, refusal_of, after};
ghost use Rattle.table.specs.Build.{supply_rules, build_refusal, after_build, built_shape};
ghost use Rattle.steiner.specs.Build as steiner;
ghost use Rattle.crt.specs.Join.{sized, join_refusal, after_join};
ghost use Rattle.encoding.specs.Encode.{encode_refusal, after_encode};
ghost use Rattle.flipping.specs.Flip.{flip_answer, flip_word};
ghost use Rattle.alist.specs.Calls.{alist_text, write_rules, laid, compare_rules};
ghost use Rattle.qcldpc.specs.Door.{Replies, Leaves, KeptUnless0, nothing, one, sizes, counts, odd_check, verdict, witness};

use square::supply::Family;
use weights::change;

mod reply; // reply.rt: an answer as a number and values

// The places that `out` is to have.
const PLACES: usize = 32;

// What a call returns where it has fewer.
const NO_ROOM: u64 = 18446744073709551615;

// Whether a plan may be used.
#[unsafe(no_mangle)]
pub extern "C" fn qcldpc_check(
    plan: &[i16],
    rows: u64,
    cols: u64,
    lift: u64,
    out: &mut [u64],
) -> u64
    ensures { Replies ⊤ (λ v. v ≡ ok_unless (lowest (plan_rules plan.now rows cols lift))) nothing out.old result out.new }
{
    if out.len() < PLACES {
        return NO_ROOM;
    }
    reply::give(
        exponent::validate(plan, rows as usize, cols as usize, lift as usize),
        out,
    )
}

// The girth test: out[0] is 0 where the plan passes, else n of a witness cycle, half the girth; its checks stand from out[1],
// its bits from out[9].
#[unsafe(no_mangle)]
pub extern "C" fn qcldpc_girth(
    plan: &[i16],
    rows: u64,
    cols: u64,
    lift: u64,
    target: u64,
    out: &mut [u64],
) -> u64
    ensures { Replies (Option Cycle) (Answer plan.now rows cols lift target) witness out.old result out.new }
{
    if out.len() < PLACES {
        return NO_ROOM;
    }
    reply::give(
        girth::test(
            plan,
            rows as usize,
            cols as usize,
            lift as usize,
            target as usize,
        ),
        out,
    )
}

// The girth test by sorted pairs, over a lent work list: out[0] is 0 where the plan passes, else 1.
#[unsafe(no_mangle)]
pub extern "C" fn qcldpc_girth_pairs(
    plan: &[i16],
    rows: u64,
    cols: u64,
    lift: u64,
    target: u64,
    work: &mut [u64],
    out: &mut [u64],
) -> u64
    ensures answers { Replies Bool (pairs.Answer plan.now rows cols lift target (length work.old)) verdict out.old result out.new }
    ensures leaves { KeptUnless0 result work.old work.new }
{
    if out.len() < PLACES {
        return NO_ROOM;
    }
    reply::give(
        treetest::test(
            plan,
            rows as usize,
            cols as usize,
            lift as usize,
            target as usize,
            work,
        ),
        out,
    )
}

// The decoder: out[0] erasures were filled, out[1] are left.
#[unsafe(no_mangle)]
pub extern "C" fn qcldpc_fill(
    plan: &[i16],
    rows: u64,
    cols: u64,
    lift: u64,
    word: &mut [u8],
    out: &mut [u64],
) -> u64
    ensures answers { Replies Filling (λ a. a ≡ fill_answer plan.now rows cols lift word.old) counts out.old result out.new }
    ensures leaves { Leaves out.old (fill_word plan.now rows cols lift word.old) word.old word.new }
{
    if out.len() < PLACES {
        return NO_ROOM;
    }
    reply::give(
        peeling::fill(plan, rows as usize, cols as usize, lift as usize, word),
        out,
    )
}

// A round of bit flipping: out[0] bits were turned.
#[unsafe(no_mangle)]
pub extern "C" fn qcldpc_flip(
    plan: &[i16],
    rows: u64,
    cols: u64,
    lift: u64,
    word: &mut [u8],
    out: &mut [u64],
) -> u64
    ensures answers { Replies ℕ (λ a. a ≡ flip_answer plan.now rows cols lift word.old) one out.old result out.new }
    ensures leaves { Leaves out.old (flip_word plan.now rows cols lift word.old) word.old word.new }
{
    if out.len() < PLACES {
        return NO_ROOM;
    }
    reply::give(
        flipping::flip(plan, rows as usize, cols as usize, lift as usize, word),
        out,
    )
}

// The encoder: the word then holds the codeword of the data bits. Nothing is put into `out` but a refusal's values.
#[unsafe(no_mangle)]
pub extern "C" fn qcldpc_encode(
    plan: &[i16],
    rows: u64,
    cols: u64,
    lift: u64,
    data: &[u8],
    word: &mut [u8],
    out: &mut [u64],
) -> u64
    ensures answers { Replies ⊤ (λ a. a ≡ ok_unless (encode_refusal plan.now rows cols lift «data».now word.old)) nothing out.old result out.new }
    ensures leaves { Leaves out.old (after_encode plan.now rows cols lift «data».now word.old) word.old word.new }
{
    if out.len() < PLACES {
        return NO_ROOM;
    }
    let encoded = encoding::encode(
        plan,
        rows as usize,
        cols as usize,
        lift as usize,
        data,
        word,
    );
    reply::give(encoded, out)
}

// The preview: what the decoder would put into `out`, with the word only read.
#[unsafe(no_mangle)]
pub extern "C" fn qcldpc_preview(
    plan: &[i16],
    rows: u64,
    cols: u64,
    lift: u64,
    word: &[u8],
    out: &mut [u64],
) -> u64
    ensures { Replies Filling (Previews plan.now rows cols lift word.now) counts out.old result out.new }
{
    if out.len() < PLACES {
        return NO_ROOM;
    }
    reply::give(
        peeling::preview(plan, rows as usize, cols as usize, lift as usize, word),
        out,
    )
}

// The syndrome: out[0] is 0 where every check is even, else 1, with the lowest odd check in out[1].
#[unsafe(no_mangle)]
pub extern "C" fn qcldpc_syndrome(
    plan: &[i16],
    rows: u64,
    cols: u64,
    lift: u64,
    word: &[u8],
    out: &mut [u64],
) -> u64
    ensures { Replies (Option ℕ) (λ a. a ≡ syndrome_of plan.now rows cols lift word.now) odd_check out.old result out.new }
{
    if out.len() < PLACES {
        return NO_ROOM;
    }
    reply::give(
        syndrome::check(plan, rows as usize, cols as usize, lift as usize, word),
        out,
    )
}

// The erasures of a word, for any list of bytes: out[0] is their number. Nothing is refused.
#[unsafe(no_mangle)]
pub extern "C" fn qcldpc_count_erasures(word: &[u8], out: &mut [u64]) -> u64
    ensures { Replies ℕ (λ a. a ≡ Ok (erasures word.now)) one out.old result out.new }
{
    if out.len() < PLACES {
        return NO_ROOM;
    }
    let n = syndrome::byte::count_erasures(word);
    reply::give(Ok(n), out)
}

// The plan of a table and a mask, with its row and column weights: out[0] rows and out[1] columns.
#[unsafe(no_mangle)]
pub extern "C" fn qcldpc_build(
    order: u64,
    lift: u64,
    table: &[i16],
    mask: &[u8],
    plan: &mut [i16],
    row_weights: &mut [u16],
    col_weights: &mut [u16],
    out: &mut [u64],
) -> u64
    ensures answers { Replies Shape (λ a. a ≡ outcome (build_refusal order lift table.now mask.now (held plan.old row_weights.old col_weights.old)) (built_shape order lift mask.now)) sizes out.old result out.new }
    ensures leaves { Leaves out.old (after_build order lift table.now mask.now (held plan.old row_weights.old col_weights.old)).plan plan.old plan.new }
    ensures rows { Leaves out.old (after_build order lift table.now mask.now (held plan.old row_weights.old col_weights.old)).rows row_weights.old row_weights.new }
    ensures cols { Leaves out.old (after_build order lift table.now mask.now (held plan.old row_weights.old col_weights.old)).cols col_weights.old col_weights.new }
{
    if out.len() < PLACES {
        return NO_ROOM;
    }
    reply::give(
        table::build(
            order as usize,
            lift as usize,
            table,
            mask,
            plan,
            row_weights,
            col_weights,
        ),
        out,
    )
}

// The plan of a Steiner triple system, with its row and column weights: out[0] rows and out[1] columns.
#[unsafe(no_mangle)]
pub extern "C" fn qcldpc_steiner(
    order: u64,
    lift: u64,
    voltages: &[i16],
    plan: &mut [i16],
    row_weights: &mut [u16],
    col_weights: &mut [u16],
    out: &mut [u64],
) -> u64
    ensures answers { Replies Shape (λ a. a ≡ outcome (steiner.build_refusal order lift voltages.now (held plan.old row_weights.old col_weights.old)) (steiner.built_shape order lift)) sizes out.old result out.new }
    ensures leaves { Leaves out.old (steiner.after_build order lift voltages.now (held plan.old row_weights.old col_weights.old)).plan plan.old plan.new }
    ensures rows { Leaves out.old (steiner.after_build order lift voltages.now (held plan.old row_weights.old col_weights.old)).rows row_weights.old row_weights.new }
    ensures cols { Leaves out.old (steiner.after_build order lift voltages.now (held plan.old row_weights.old col_weights.old)).cols col_weights.old col_weights.new }
{
    if out.len() < PLACES {
        return NO_ROOM;
    }
    reply::give(
        steiner::build(
            order as usize,
            lift as usize,
            voltages,
            plan,
            row_weights,
            col_weights,
        ),
        out,
    )
}

// One entry changed, with the row and column weights kept true.
#[unsafe(no_mangle)]
pub extern "C" fn qcldpc_change(
    plan: &mut [i16],
    rows: u64,
    cols: u64,
    lift: u64,
    row: u64,
    col: u64,
    entry: i16,
    row_weights: &mut [u16],
    col_weights: &mut [u16],
    out: &mut [u64],
) -> u64
    ensures answers { Replies ⊤ (λ a. a ≡ ok_unless (refusal_of (call rows cols lift row col entry) (held plan.old row_weights.old col_weights.old)))
        nothing out.old result out.new }
    ensures leaves { Leaves out.old (after (call rows cols lift row col entry) (held plan.old row_weights.old col_weights.old)).plan
        plan.old plan.new }
    ensures rows { Leaves out.old (after (call rows cols lift row col entry) (held plan.old row_weights.old col_weights.old)).rows
        row_weights.old row_weights.new }
    ensures cols { Leaves out.old (after (call rows cols lift row col entry) (held plan.old row_weights.old col_weights.old)).cols
        col_weights.old col_weights.new }
{
    if out.len() < PLACES {
        return NO_ROOM;
    }
    reply::give(
        change::change(
            plan,
            rows as usize,
            cols as usize,
            lift as usize,
            row as usize,
            col as usize,
            entry,
            row_weights,
            col_weights,
        ),
        out,
    )
}

// Two plans made one: out[0] is the joined lift.
#[unsafe(no_mangle)]
pub extern "C" fn qcldpc_join(
    first: &[i16],
    rows: u64,
    cols: u64,
    lift: u64,
    second: &[i16],
    rows2: u64,
    cols2: u64,
    lift2: u64,
    joined: &mut [i16],
    out: &mut [u64],
) -> u64
    ensures answers { Replies ℕ (λ a. a ≡ outcome (join_refusal (sized first.now rows cols lift) (sized second.now rows2 cols2 lift2) (length joined.old)) (lift * lift2))
        one out.old result out.new }
    ensures leaves { Leaves out.old (after_join (sized first.now rows cols lift) (sized second.now rows2 cols2 lift2) joined.old)
        joined.old joined.new }
{
    if out.len() < PLACES {
        return NO_ROOM;
    }
    let joining = crt::join(
        first,
        rows as usize,
        cols as usize,
        lift as usize,
        second,
        rows2 as usize,
        cols2 as usize,
        lift2 as usize,
        joined,
    );
    reply::give(joining, out)
}

// A supplied table.
fn supply(family: Family, order: u64, table: &mut [i16], out: &mut [u64]) -> u64
    ensures answers { Replies ⊤ (λ a. a ≡ ok_unless (lowest (supply_rules order (length table.old)))) nothing out.old result out.new }
    ensures leaves { Leaves out.old (lent (lowest (supply_rules order (length table.old)))
        (supplied_table family order) table.old) table.old table.new }
{
    if out.len() < PLACES {
        return NO_ROOM;
    }
    reply::give(table::supply::supply(family, order as usize, table), out)
}

// The array table.
#[unsafe(no_mangle)]
pub extern "C" fn qcldpc_array_table(order: u64, table: &mut [i16], out: &mut [u64]) -> u64
    ensures answers { Replies ⊤ (λ a. a ≡ ok_unless (lowest (supply_rules order (length table.old)))) nothing out.old result out.new }
    ensures leaves { Leaves out.old (lent (lowest (supply_rules order (length table.old)))
        (supplied_table Array order) table.old) table.old table.new }
{
    supply(Family::Array, order, table, out)
}

// The cyclic table.
#[unsafe(no_mangle)]
pub extern "C" fn qcldpc_cyclic_table(order: u64, table: &mut [i16], out: &mut [u64]) -> u64
    ensures answers { Replies ⊤ (λ a. a ≡ ok_unless (lowest (supply_rules order (length table.old)))) nothing out.old result out.new }
    ensures leaves { Leaves out.old (lent (lowest (supply_rules order (length table.old)))
        (supplied_table Cyclic order) table.old) table.old table.new }
{
    supply(Family::Cyclic, order, table, out)
}

// The alist of a plan, into a lent place: out[0] is its length.
#[unsafe(no_mangle)]
pub extern "C" fn qcldpc_alist_write(
    plan: &[i16],
    rows: u64,
    cols: u64,
    lift: u64,
    row_weights: &[u16],
    col_weights: &[u16],
    text: &mut [u8],
    out: &mut [u64],
) -> u64
    ensures answers { Replies ℕ (λ a. a ≡ outcome (lowest (write_rules plan.now rows cols lift row_weights.now col_weights.now text.old)) (length (alist_text plan.now rows cols lift)))
        one out.old result out.new }
    ensures leaves { Leaves out.old (laid (lowest (write_rules plan.now rows cols lift row_weights.now col_weights.now text.old)) (alist_text plan.now rows cols lift) text.old)
        text.old text.new }
{
    if out.len() < PLACES {
        return NO_ROOM;
    }
    reply::give(
        alist::write(
            plan,
            rows as usize,
            cols as usize,
            lift as usize,
            row_weights,
            col_weights,
            text,
        ),
        out,
    )
}

// A lent text against the alist of a plan.
#[unsafe(no_mangle)]
pub extern "C" fn qcldpc_alist_compare(
    plan: &[i16],
    rows: u64,
    cols: u64,
    lift: u64,
    row_weights: &[u16],
    col_weights: &[u16],
    text: &[u8],
    out: &mut [u64],
) -> u64
    ensures { Replies ⊤ (λ a. a ≡ ok_unless (lowest (compare_rules plan.now rows cols lift row_weights.now col_weights.now text.now))) nothing out.old result out.new }
{
    if out.len() < PLACES {
        return NO_ROOM;
    }
    reply::give(
        alist::compare(
            plan,
            rows as usize,
            cols as usize,
            lift as usize,
            row_weights,
            col_weights,
            text,
        ),
        out,
    )
}
