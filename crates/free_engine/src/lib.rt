//! A run by several workers, which share its words without a lock, and the hints by which they tell each
//! other of lines: a queue of numbers of lines, which they share, with what each puts into it and takes out,
//! and a round of numbers, which needs no memory.
#![tactic(auto)]

mod engine;
mod hint_list;
mod hint_queue;
mod hint_rule;
mod hint_view;
mod laws;
mod line_counts;
mod queue_counts;
mod queue_hints;
mod round;
mod search;
mod shared_words;
mod team;
mod workers;

pub use engine::run_free;
pub use hint_list::HintList;
pub use hint_queue::{HintPass, HintQueue};
pub use hint_view::HintView;
pub use laws::lists_change_by_steps;
pub use queue_hints::QueueHints;
pub use round::Round;
