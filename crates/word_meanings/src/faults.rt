//! What refuses words of an operation line.

ghost use Rattle.std.specs.Prelude.{◌≡◌, ◌||◌};

/// What is to be said of one of the words at least.
#[derive(Clone, Copy, Default)]
pub struct Faults {
    /// It is not spelled as its place asks, where it asks for names.
    pub misnamed: bool,
    /// It names what was ended or released already.
    pub twice: bool,
    /// It names what is not declared, or a field that its instance has not.
    pub unknown: bool,
    /// It names a thing of another kind than its place takes.
    pub unlike: bool,
    /// It is not spelled as the number that its place asks for.
    pub misnumbered: bool,
}

impl Faults {
    /// With those of more words.
    pub fn with(self, more: Faults) -> Faults
        ensures misnamed { result.misnamed ≡ (self.misnamed || more.misnamed) }
        ensures twice { result.twice ≡ (self.twice || more.twice) }
        ensures unknown { result.unknown ≡ (self.unknown || more.unknown) }
        ensures unlike { result.unlike ≡ (self.unlike || more.unlike) }
        ensures misnumbered { result.misnumbered ≡ (self.misnumbered || more.misnumbered) }
    {
        Faults {
            misnamed: self.misnamed | more.misnamed,
            twice: self.twice | more.twice,
            unknown: self.unknown | more.unknown,
            unlike: self.unlike | more.unlike,
            misnumbered: self.misnumbered | more.misnumbered,
        }
    }
}
