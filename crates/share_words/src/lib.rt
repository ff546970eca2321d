//! How many shares the columns of a graph have, and which words and slots these shares have in a table.
//!
//! A column that lines only read is lent by shares. The first share is what is left of the lending, and each
//! of the others is for a line that only reads the column. A column that no line only reads has none.
#![tactic(auto)]

mod counting;
mod share_counts;

pub use share_counts::ShareCounts;
