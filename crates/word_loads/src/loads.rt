//! What a line holds.

ghost use Rattle.std.specs.Prelude.{◌≡◌, []};
ghost use Rattle.word_loads.specs.Gathering.{no_numbers};

use index_spaces::held::Held;

/// The columns and shares that a line holds, and for each of its accesses that only reads the number of the share.
/// A load is moved several times for each line, and is shorter by numbers of one byte.
#[derive(Drop)]
pub struct Load {
    pub held: Held,
    pub numbers: [u8; 3],
}

impl Load {
    /// Nothing.
    pub fn none() -> Load
        ensures { result ≡ record { held = []; numbers = no_numbers } }
    {
        Load {
            held: Held::none(),
            numbers: [0; 3],
        }
    }
}
