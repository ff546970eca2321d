//! A boxed value that is lent to several readers side by side, threads too, and is a box again once all of its shares
//! are back.
//!
//! [`lend`] takes the box apart into a [`Lender`], the right to have it back, and a [`ReadShare`] of all 2^63 shares. Each
//! part of them shows the value, exactly as it was lent. [`reclaim`] takes the lender and all shares.
#![tactic(auto)]

mod lending;

pub use lending::{Lender, ReadShare, lend, reclaim};
