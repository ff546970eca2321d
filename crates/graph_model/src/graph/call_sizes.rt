//! How long the words of a call are, each with the byte behind it.

ghost use Rattle.std.specs.Prelude.{◌≡◌, ◌+◌, ◌≤◌, decimal, length, map};
ghost use Rattle.graph_terms.specs.Spelling.{mode_word};
ghost use Rattle.graph_indexes.specs.Counts.{words_size};

use super::Graph;
use crate::graph::words::{name_size, number_size, word_size};
use graph_terms::call::Call;
use graph_terms::verb::{Access, Mode};

impl Graph {
    ghost use Rattle.std.specs.Prelude.{◌≡◌, ◌+◌, ◌≤◌, flat_map, length};
    ghost use Rattle.graph_indexes.specs.Counts.{words_size};
    ghost use Rattle.graph_terms.specs.Spelling.{access_words, call_words, data_name};

    /// The words of a call.
    pub(super) fn call_size(&self, call: &Call) -> u64
        ensures size { result ≡ words_size (call_words self.now call.now) }
        ensures few { result ≤ 1000000000000 }
    {
        word_size(b"call")
            + name_size(call.word())
            + values_size(call.values().items.as_slice())
            + self.accesses_size(call.accesses().items.as_slice())
    }

    fn accesses_size(&self, accesses: &[Access]) -> u64
        requires { length accesses.now ≤ u32.MAX }
        ensures size { result ≡ words_size (flat_map (access_words self.now) accesses.now) }
        ensures few { result ≤ 858993459000 }
    {
        let mut size = 0;
        for access in accesses {
            size += self.access_size(access);
        }
        size
    }

    fn access_size(&self, access: &Access) -> u64
        ensures size { result ≡ words_size (access_words self.now access.now) }
        ensures few { result ≤ 200 }
    {
        mode_size(access.mode) + self.data_size(access.column) + self.space_size(access.space)
    }

    fn data_size(&self, c: u32) -> u64
        ensures size { result ≡ length (data_name self.now c) + 1 }
        ensures few { result ≤ 128 }
    {
        if c >= self.data_columns() {
            return 1;
        }
        let (owner, field) = self.data_column_name(c);
        name_size(&owner) + name_size(&field)
    }
}

fn values_size(values: &[u64]) -> u64
    requires { length values.now ≤ u32.MAX }
    ensures size { result ≡ words_size (map decimal values.now) }
    ensures few { result ≤ 90194313216 }
{
    let mut size = 0;
    for value in values {
        size += number_size(*value);
    }
    size
}

fn mode_size(mode: Mode) -> u64
    ensures size { result ≡ length (mode_word mode) + 1 }
    ensures few { result ≤ 6 }
{
    match mode {
        Mode::Read => word_size(b"read"),
        Mode::Write => word_size(b"write"),
        Mode::Sum => word_size(b"sum"),
        Mode::Least => word_size(b"min"),
        Mode::Most => word_size(b"max"),
    }
}
