//! The tests of declarations that look at no graph.

ghost use Rattle.std.specs.Prelude.{◌≡◌};
ghost use Rattle.graph_terms.specs.Fits.{decl_repeats, decl_lacks, decl_misnumbered, is_large};

use graph_indexes::repeats::names_repeat;
use graph_terms::decl::Decl;
use graph_terms::format::Format;
use graph_terms::limits::Limits;

/// Whether a field stands there twice.
pub fn decl_repeats(decl: &Decl) -> bool
    ensures { result ≡ decl_repeats decl.now }
{
    match decl {
        Decl::Inst { fields, .. } => names_repeat(fields.items.as_slice()),
        Decl::Data { fields, .. } => names_repeat(fields.items.as_slice()),
        _ => false,
    }
}

/// Whether a declaration is one that the format has not.
pub fn decl_lacks(format: Format, decl: &Decl) -> bool
    ensures { result ≡ decl_lacks format decl.now }
{
    match decl {
        Decl::Data { .. } => !format.has_since(Format::Three),
        _ => false,
    }
}

/// Whether an instance or data has no field, or a barrier a count out of range.
pub fn decl_misnumbered(format: Format, decl: &Decl) -> bool
    ensures { result ≡ decl_misnumbered format decl.now }
{
    match decl {
        Decl::Inst { fields, .. } => fields.len() < 1,
        Decl::Data { fields, .. } => fields.len() < 1,
        Decl::Barrier { count, .. } => *count < 1 || *count > Limits::of(format).count,
        _ => false,
    }
}

/// Whether a declared space has too many intervals or points.
pub fn is_large(format: Format, decl: &Decl) -> bool
    ensures { result ≡ is_large format decl.now }
{
    match decl {
        Decl::Space { space, .. } => {
            let limits = Limits::of(format).space;
            space.intervals().len() > limits.intervals as usize || space.size() > limits.points
        }
        _ => false,
    }
}
