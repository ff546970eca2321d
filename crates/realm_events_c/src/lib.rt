//! Shared events, for callers in C.
#![tactic(auto)]

mod exports;
mod held;
mod inside;
mod making;
mod owed;
mod owner;
mod place;
mod status;
mod token;
