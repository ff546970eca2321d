//! A law of what is told. The function only states it.

ghost use Rattle.std.specs.Prelude.{ℕ, List};
ghost use Rattle.explain_text.specs.Laws.{TellsOwnLines};

/// What is told as line N of a text is the line of that number, and spells the operation that it is told of.
pub fn told_lines_are_the_texts()
    ensures { (bytes : List ℕ) → TellsOwnLines bytes }
{}
