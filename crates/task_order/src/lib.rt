//! Tasks in the order in which a program inserts them: which depends on which, what they do one after the
//! other, and what holds of each run in which they go side by side. The definitions stand in `specs/`; the
//! functions of [`laws`] state what is proved of them.
#![tactic(auto)]

pub mod access;
pub mod laws;
pub mod status;
