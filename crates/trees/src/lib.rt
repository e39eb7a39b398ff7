// The trees of a plan's columns (source 000, Algorithms TR and B), grown into a lent list, and the pairs in them.
#![tactic(auto)]

mod grow; // grow.rt: a tree, by a function that calls itself at each step
mod sorted; // sorted.rt: whether a list of nodes has a pair
pub mod columns; // columns.rt: over all columns, whether the trees have room, and whether one has a pair
