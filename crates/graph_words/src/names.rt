//! Words as names.

ghost use Rattle.basics.specs.Words.{contents};
ghost use Rattle.std.specs.Prelude.{◌≡◌, map, false, true, IfOk, MatchOption};
ghost use Rattle.std.specs.List.{list_all};
ghost use Rattle.std.specs.Str.{bytes_eq};
ghost use Rattle.graph_terms.specs.Fits.{repeats};
ghost use Rattle.graph_terms.specs.Name.{is_name_in};

use graph_terms::format::Format;
use graph_terms::name::Name;
use index_spaces::NoMemory;
use std::alloc::Global;
use std::collections::BTreeSet;

/// The words as names of a format. `None` exactly where one of them is spelled otherwise.
pub fn names_of(
    alloc: Global,
    format: Format,
    words: &[&[u8]],
) -> Result<Option<Vec<Name>>, NoMemory>
    ensures { IfOk result (λ o. MatchOption o (list_all (is_name_in format) (contents words.now) ≡ false)
        (λ v. (v.items ≡ contents words.now) × (list_all (is_name_in format) (contents words.now) ≡ true))) }
{
    let mut names = Vec::new(alloc);
    for word in words {
        let Some(name) = Name::in_format(format, word) else {
            return Ok(None);
        };
        let Ok(()) = names.push(name) else {
            return Err(NoMemory);
        };
    }
    Ok(Some(names))
}

/// Whether a name stands there twice.
pub fn has_repeat(alloc: Global, names: &[Name]) -> Result<bool, NoMemory>
    ensures { IfOk result (λ b. b ≡ repeats bytes_eq names.now) }
{
    let mut seen = BTreeSet::new(alloc);
    for name in names {
        match seen.insert(*name) {
            Ok(true) => {}
            Ok(false) => return Ok(true),
            Err(_) => return Err(NoMemory),
        }
    }
    Ok(false)
}
