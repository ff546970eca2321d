//! The formats of graph files.

ghost use Rattle.std.specs.Prelude.{◌≡◌};
ghost use Rattle.graph_terms.specs.Format.{has_since};

/// Which format a graph has. Format 2 has weighted arrivals and shared acquires, and takes
/// reductions by the least and by the greatest value for what they are, where format 1 takes them
/// for writes. Format 3 has lines that wait for several events, longer names, also
/// with capital letters, and comments in its text.
#[derive(Clone, Copy, Debug, PartialEq, Eq)]
pub enum Format {
    One,
    Two,
    Three,
}

impl Format {
    /// Whether it has what another format brought.
    pub fn has_since(self, since: Format) -> bool
        ensures { result ≡ has_since since self }
    {
        match (since, self) {
            (Format::One, _) => true,
            (Format::Two, Format::One) => false,
            (Format::Two, _) => true,
            (Format::Three, Format::Three) => true,
            (Format::Three, _) => false,
        }
    }
}
