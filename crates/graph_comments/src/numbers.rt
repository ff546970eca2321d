//! Numbers of lines, with comments and without.

ghost use Rattle.std.specs.Prelude.{◌≡◌, ◌≤◌, length};
ghost use Rattle.graph_comments.specs.Comments.{lines, comments_above, number_in_whole};

use crate::lines::{first_line, is_closing, is_comment};

/// How many comments stand above the line of a place among those that stay.
fn comments_above(bytes: &[u8], place: u32) -> usize
    ensures above { result ≡ comments_above place (lines bytes.now) }
    ensures few { result ≤ length bytes.now }
{
    let mut rest = bytes;
    let mut left = place;
    let mut comments = 0;
    while let Some((line, behind)) = first_line(rest) {
        if is_closing(line) {
            return comments;
        }
        if is_comment(line) {
            comments += 1;
        } else {
            if left == 0 {
                return comments;
            }
            left -= 1;
        }
        rest = behind;
    }
    comments
}

/// The number in the whole text of a line that has this number without comments, both counted from 1.
pub fn number_in_whole(bytes: &[u8], number: u32) -> u64
    ensures { result ≡ number_in_whole bytes.now number }
{
    if number <= 1 {
        return u64::from(number);
    }
    match first_line(bytes) {
        Some((_, behind)) => u64::from(number) + comments_above(behind, number - 2) as u64,
        None => u64::from(number),
    }
}
