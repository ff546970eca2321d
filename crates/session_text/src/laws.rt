//! What holds of all bytes, for callers to cite. No function here does anything.

ghost use Rattle.std.specs.Prelude.{ℕ, ◌≤◌, List, length};
ghost use Rattle.graph_terms.specs.declared.limits.TheConstants.{MAX_TEXT};
ghost use Rattle.session_text.specs.Laws.{OneSession};

/// Up to 1,048,576 bytes are the text of one session at most, and have one first fault at most, and not both.
pub fn bytes_have_one_session()
    ensures { (bytes : List ℕ) → length bytes ≤ MAX_TEXT → OneSession bytes }
{}
