//! A buffer of fixed length that is filled from its front.
ghost use Rattle.std.specs.Prelude.{◌≡◌, ◌-◌, ◌≤◌, ◌++◌, [], length, vec_len};

use std::marker::Model;

/// Bytes kept in memory that was made before, seen as the bytes and how many more fit.
#[derive(Drop)]
pub(crate) struct FixedBuffer {
    bytes: Vec<u8>,
    used: usize,
}

impl Model for FixedBuffer {
    ghost use Rattle.std.specs.Prelude.{◌-◌, ◌≤◌, length, take};
    ghost use Rattle.realm_io.specs.Memory.{FixedBufferValue};

    ghost Value = { FixedBufferValue };

    ghost view = { λ a. record {
      taken = take a.used a.bytes.items;
      free = length a.bytes.items - a.used;
    } };

    ghost invariant = { λ a. a.used ≤ length a.bytes.items };
}

impl FixedBuffer {
    /// An empty buffer, as large as `bytes` is long.
    pub(crate) fn new(bytes: Vec<u8>) -> Self
        ensures taken { result.taken ≡ [] }
        ensures free { result.free ≡ vec_len bytes }
    {
        FixedBuffer { bytes, used: 0 }
    }

    /// How many more bytes fit.
    pub(crate) fn free(&self) -> usize
        ensures { result ≡ self.now.free }
    {
        self.bytes.len() - self.used
    }

    /// The bytes kept so far.
    pub(crate) fn taken(&self) -> &[u8]
        ensures { result.now ≡ self.now.taken }
    {
        &self.bytes[..self.used]
    }

    /// Keeps these bytes behind the others.
    pub(crate) fn add(&mut self, piece: &[u8])
        requires { length piece.now ≤ self.old.free }
        ensures { self.new ≡ record {
          taken = self.old.taken ++ piece.now;
          free = self.old.free - length piece.now;
        } }
    {
        let end = self.used + piece.len();
        self.bytes[self.used..end].copy_from_slice(piece);
        self.used = end;
    }
}
