// Square tables and masks: the two supplied tables, soundness, and a mask's common weight.
#![tactic(auto)]

pub mod signed; // signed.rt: signed numbers, read and made in one place each
pub mod search; // search.rt: refusal 10, the first difference that repeats
pub mod mask; // mask.rt: the tests behind refusals 11 and 12
pub mod supply; // supply.rt: the two supplied tables
