// The test program: runs the bench cases of document 01 that are not proved as a table, and the sources' parameters,
// and writes a line for each answer, to be compared with the stored output.
#![tactic(auto)]

mod changes; // changes.rt: one block changed
mod encodings; // encodings.rt: codewords of data bits
mod flips; // flips.rt: rounds of bit flipping
mod joins; // joins.rt: two plans made one
mod lowered; // lowered.rt: a matrix with P lowered, so that voltages stand at or above it
mod pairs; // pairs.rt: the girth test by sorted pairs
mod plan; // plan.rt: plans and lists of weights as they are passed on
mod say; // say.rt: what is written of an answer
mod source000; // source000.rt: the degree matrices of source 000
mod source000_sts; // source000_sts.rt: the degree matrices of source 000 from Steiner triple systems
mod source001; // source001.rt: the labelings of source 001
mod source002; // source002.rt: the example of source 002
mod source003; // source003.rt: plans of the shape of source 003
mod steiner_plans; // steiner_plans.rt: Steiner triple plans
mod tables; // tables.rt: table plans, and source 004's examples
mod text; // text.rt: alist text
mod weights_of; // weights_of.rt: row and column weights

use std::io;

fn main(rt: HostRuntime) -> io::Result<()> {
    let out = rt.stdout();
    tables::order_six(out)?;
    tables::order_seven(out)?;
    tables::diagonal(out)?;
    tables::printed(out)?;
    text::one_row(out)?;
    source002::example_one(out)?;
    source001::table_two(out)?;
    source001::girth_fourteen(out)?;
    source000::tables(out)?;
    source000_sts::table_six(out)?;
    steiner_plans::orders(out)?;
    steiner_plans::turned_away(out)?;
    steiner_plans::negative(out)?;
    changes::small(out)?;
    changes::judged_again(out)?;
    pairs::example_one(out)?;
    pairs::labelings(out)?;
    pairs::four_columns(out)?;
    pairs::five_columns(out)?;
    pairs::five_lowered(out)?;
    joins::example(out)?;
    joins::above(out)?;
    joins::labelings(out)?;
    joins::tables(out)?;
    joins::largest_lift(out)?;
    joins::sizes(out)?;
    joins::turned_away(out)?;
    joins::no_block(out)?;
    encodings::small_plans(out)?;
    source003::frames(out)?;
    encodings::turned_away(out)?;
    flips::order_seven(out)?;
    flips::table_six(out)?;
    flips::order_nineteen(out)?;
    flips::turned_away(out)
}
