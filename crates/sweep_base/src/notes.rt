//! Notes of lines.

ghost use Rattle.std.specs.Prelude.{◌≡◌, ℕ, ◌<◌, ◌≤◌, false, length};
ghost use Rattle.sweep_base.specs.Noted.{is_noted};

/// Whether a line of these is noted.
pub fn is_any_noted(noted: &[bool], first: u32, end: u32) -> bool
    requires { end ≤ length noted.now }
    ensures { result ≡ false → (i : ℕ) → first ≤ i → i < end → is_noted noted.now i ≡ false }
{
    for line in first..end {
        if noted[line as usize] {
            return true;
        }
    }
    false
}
