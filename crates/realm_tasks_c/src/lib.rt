//! Windows of tasks, for callers in C, whose threads run the bodies. A caller makes one call at a time on a window.
#![tactic(auto)]

mod calls;
mod held;
mod inside;
mod status;
mod token;
