//! Lists with an item that stands in them twice.

ghost use Rattle.std.specs.Prelude.{◌≡◌, ℕ, ◌∷◌, ◌||◌, false, nat_eq};
ghost use Rattle.std.specs.List.{list_any, slice_index_or};
ghost use Rattle.std.specs.Str.{bytes_eq};
ghost use Rattle.graph_terms.specs.Fits.{repeats};
ghost use Rattle.graph_indexes.specs.Repeats.{clashes};

use graph_terms::name::Name;

/// How many numbers are compared pair by pair.
const FEW: usize = 64;

/// How many numbers have a mark: one for each line that a graph of formats 1 and 2 may have. The marks
/// are on the stack, so a greater number is compared with those behind it.
const MARKS: usize = 8_192;

/// Whether a number stands there twice. Of many numbers it takes a step for each that has a mark.
pub fn numbers_repeat(numbers: &[u32]) -> bool
    ensures { result ≡ repeats nat_eq numbers.now }
{
    if numbers.len() <= FEW {
        few_repeat(numbers)
    } else {
        many_repeat(numbers)
    }
}

/// Whether a name stands there twice.
pub fn names_repeat(names: &[Name]) -> bool
    ensures { result ≡ repeats bytes_eq names.now }
{
    let mut rest = names;
    while let [first, others @ ..] = rest {
        if has_name(others, first) {
            return true;
        }
        rest = others;
    }
    false
}

/// Whether a number stands there twice, pair by pair.
fn few_repeat(numbers: &[u32]) -> bool
    ensures { result ≡ repeats nat_eq numbers.now }
{
    let mut rest = numbers;
    while let [first, others @ ..] = rest {
        if has_number(others, *first) {
            return true;
        }
        rest = others;
    }
    false
}

/// Whether a number stands there twice, by marks.
fn many_repeat(numbers: &[u32]) -> bool
    ensures { result ≡ repeats nat_eq numbers.now }
{
    let mut marks = [false; MARKS];
    marked_repeat(&mut marks, numbers)
}

/// Whether a number stands there twice, by marks that are all unset.
fn marked_repeat(marks: &mut [bool], numbers: &[u32]) -> bool
    requires { (i : ℕ) → slice_index_or marks.old i false ≡ false }
    ensures { result ≡ repeats nat_eq numbers.now }
{
    let mut rest = numbers;
    while let [first, others @ ..] = rest {
        if marks_again(marks, *first, others) {
            return true;
        }
        rest = others;
    }
    false
}

/// Whether a number is marked already. Else it is marked, or where it has no mark it is looked for
/// among the others.
fn marks_again(marks: &mut [bool], number: u32, others: &[u32]) -> bool
    ensures { (result || clashes marks.new others.now) ≡ clashes marks.old (number ∷ others.now) }
{
    let place = number as usize;
    match marks.get(place) {
        Some(true) => true,
        Some(false) => {
            marks[place] = true;
            false
        }
        None => has_number(others, number),
    }
}

fn has_number(numbers: &[u32], wanted: u32) -> bool
    ensures { result ≡ list_any (nat_eq wanted) numbers.now }
{
    numbers.iter().any(|number| wanted == *number)
}

fn has_name(names: &[Name], wanted: &Name) -> bool
    ensures { result ≡ list_any (bytes_eq wanted.now) names.now }
{
    names.iter().any(|name| *wanted == *name)
}
