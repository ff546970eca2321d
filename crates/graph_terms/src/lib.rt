//! What a graph is made of: names, declarations, lines and what they do, the table of their kinds, the
//! reasons that refuse them, and what a run gives.
#![tactic(auto)]

pub mod access;
pub mod call;
pub mod decl;
pub mod format;
pub mod found;
pub mod limits;
pub mod lists;
pub mod name;
pub mod outcome;
pub mod table;
pub mod verb;
pub mod why;
