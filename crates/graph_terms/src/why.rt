//! Reasons for which a line of a text, or an item, is refused.

/// Why a line of a text or an item is refused. Of those that apply the first in this order is given.
#[derive(Clone, Copy, Debug, PartialEq, Eq)]
pub enum Why {
    /// The first line isn't that of a graph's text.
    Header,
    /// The line has no form, or is a declaration below an operation line.
    Syntax,
    /// A word in a name's place is no name.
    Name,
    /// A name is declared again, an event is named or ended twice, an acquire is released twice, or a column is named twice.
    Twice,
    /// No item above has this name or number.
    Unknown,
    /// The item of this name or number is of another kind, or the verb waits for nothing.
    Kind,
    /// A number is misspelled or out of its range, or a list is empty.
    Number,
    /// Intervals are reversed, touch, or don't ascend.
    Space,
    /// A space doesn't lie within that of a column.
    Outside,
    /// Two accesses of a call are of one column and meet, and both change it or one of them reduces.
    Meets,
    /// The phase has all its arrivals already.
    Arrivals,
    /// With this item a quantity passes its limit.
    Limit,
    /// The text ends before or within this line, and its last line wasn't there.
    Missing,
    /// There are bytes after the last line.
    Rest,
}

impl Why {
    ghost use Rattle.std.specs.Prelude.{◌≡◌};
    ghost use Rattle.graph_terms.specs.Spelling.{why_word};

    /// The word of the reason, as it stands behind `refused line N`.
    pub fn word(self) -> &'static str
        ensures { result.now ≡ why_word self }
    {
        match self {
            Why::Header => "header",
            Why::Syntax => "syntax",
            Why::Name => "name",
            Why::Twice => "twice",
            Why::Unknown => "unknown",
            Why::Kind => "kind",
            Why::Number => "number",
            Why::Space => "space",
            Why::Outside => "outside",
            Why::Meets => "meets",
            Why::Arrivals => "arrivals",
            Why::Limit => "limit",
            Why::Missing => "missing",
            Why::Rest => "rest",
        }
    }
}
