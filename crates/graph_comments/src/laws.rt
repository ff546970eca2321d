//! Laws of texts and their comments. Each function only states one.

ghost use Rattle.graph_comments.specs.Laws.{LinesStay, NumbersGrow, CommentsGo, NoneIsLeft, NumbersStay};

/// The lines of the text without comments are lines of the whole, in order, and only comments are left out.
pub fn lines_keep_their_numbers()
    ensures stay { LinesStay }
    ensures grow { NumbersGrow }
    ensures go { CommentsGo }
{}

/// The text without comments has none, and in a text that has none each line keeps its number.
pub fn one_text_is_without_comments()
    ensures none { NoneIsLeft }
    ensures numbers { NumbersStay }
{}
