//! The comments of a text, and the numbers of its lines with them and without.

ghost use Rattle.std.specs.Prelude.{◌≡◌, IfOk, option_map};
ghost use Rattle.graph_words.specs.Text.{has_comments, bare_of, number_of, IsBareOf};

use graph_comments::{bare_text, number_in_whole};
use index_spaces::NoMemory;
use std::alloc::Global;

/// So many bytes have lines that have no number of 32 bits.
const MANY_BYTES: usize = 4294967295;

/// Whether bytes may have comments: they begin with the first line of format 3, and each of their
/// lines has a number of 32 bits.
pub fn has_comments(bytes: &[u8]) -> bool
    ensures { result ≡ has_comments bytes.now }
{
    bytes.len() < MANY_BYTES && bytes.starts_with(b"realm 3\n".as_slice())
}

/// The bytes without their comments. `None` where they have none.
pub fn bare_of(alloc: Global, bytes: &[u8]) -> Result<Option<Vec<u8>>, NoMemory>
    ensures { IfOk result (λ r. IsBareOf bytes.now (option_map (λ v. v.items) r)) }
{
    if has_comments(bytes) {
        bare_text(alloc, bytes)
    } else {
        Ok(None)
    }
}

/// The number among all lines of a line that has this number without comments, both counted from 1.
pub fn number_of(bytes: &[u8], number: u32) -> u64
    ensures { result ≡ number_of bytes.now number }
{
    if has_comments(bytes) {
        number_in_whole(bytes, number)
    } else {
        u64::from(number)
    }
}
