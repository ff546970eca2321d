//! Names of a refused line, each once, with the lines that give them.
#![tactic(auto)]

mod first_places;
mod look_ups;
mod name_list;
pub mod named;
pub mod naming;

pub use named::{given_names, place_in};
pub use naming::{NamedWord, NamedWords, named_space, named_words, put_named_words, put_space};
