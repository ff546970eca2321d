//! Text for people, a fact on each line: lines with their numbers, why they wait, are cancelled or
//! are refused.
#![tactic(auto)]

pub mod accepted;
pub mod bounds;
mod comment_counts;
pub mod laws;
pub mod lines;
pub mod split;
pub mod text;
pub mod text_lines;
pub mod unread;
pub mod visible;
mod words;

pub use accepted::{put_cancelled, put_need, put_need_line, put_waiting, put_ways};
pub use split::{FrontLines, split_front, split_lines};
pub use text::Text;
pub use text_lines::Lines;
pub use unread::{line_at, put_ended, put_limit, put_mark, put_refused, put_unread};
