//! What graphs mean: edges and paths, the six rules of acceptance, evaluation in file order, orders that agree with it.
//! The definitions stand in `specs/`; the functions of [`laws`], [`line_laws`] and [`held_cells`] state what is proved of them.
#![tactic(auto)]

pub mod held_cells;
pub mod laws;
pub mod line_laws;
