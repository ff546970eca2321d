//! Graphs and traces, for callers in C: each call takes a text, or numbers, and fills a verdict or a buffer.
#![tactic(auto)]

mod audit;
mod check;
mod eval;
mod explaining;
mod making;
mod messages;
mod plan;
mod upgrade;
mod words;
