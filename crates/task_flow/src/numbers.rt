//! The names of the lines that are put in.

ghost use Rattle.std.specs.Prelude.{◌≡◌, ◌+◌, ◌<◌, ◌≤◌, IfOk};
ghost use Rattle.std.specs.List.{list_any, list_all};
ghost use Rattle.std.specs.Char.{is_ascii_digit};
ghost use Rattle.graph_terms.specs.Graph.{decl_name};
ghost use Rattle.graph_terms.specs.Fits.{names};
ghost use Rattle.task_flow.specs.Construction.{new_name, takes_width, first_number};

use graph_model::graph::Graph;
use graph_terms::name::Name;
use index_spaces::NoMemory;
use std::alloc::Global;

/// The name of an `m` and a number.
pub(crate) fn new_name(alloc: Global, first: u64, line: u32) -> Result<Name, NoMemory>
    requires first { first ≤ 100000000000000000 }
    requires line { line < 131072 }
    ensures { IfOk result (λ name. name ≡ new_name (first + line)) }
{
    let number = first + u64::from(line);
    match format!(in alloc; "m{number}") {
        Ok(text) => Ok(Name::new(text.as_bytes()).unwrap()),
        Err(_) => Err(NoMemory),
    }
}

/// The first number of the names: of the numbers with 6 to 18 digits the least whose width no name
/// of the flow takes, or `None` where names take all of these.
pub(crate) fn first_number(flow: &Graph) -> Option<u64>
    ensures { result ≡ first_number flow.now }
{
    let mut first: u64 = 100_000;
    for width in 6..19 {
        if !is_taken(flow, width) {
            return Some(first);
        }
        first *= 10;
    }
    None
}

/// Whether a name of the flow is an `m` and so many digits.
fn is_taken(flow: &Graph, width: usize) -> bool
    ensures { result ≡ list_any (takes_width width) (names flow.now) }
{
    for d in 0..flow.decls() {
        if takes_width(flow.decl(d).name(), width) {
            return true;
        }
    }
    for line in 0..flow.lines() {
        if takes_width(&flow.line(line).name, width) {
            return true;
        }
    }
    false
}

/// Whether a name is an `m` and so many digits.
fn takes_width(name: &Name, width: usize) -> bool
    ensures { result ≡ takes_width width name.now }
{
    is_numbered(name.bytes(), width)
}

/// Whether bytes are an `m` and so many digits.
fn is_numbered(bytes: &[u8], width: usize) -> bool
    ensures { result ≡ takes_width width bytes.now }
{
    let Some((first, digits)) = bytes.split_first() else {
        return false;
    };
    if *first != b'm' {
        return false;
    }
    if digits.len() != width {
        return false;
    }
    are_digits(digits)
}

/// Whether all bytes are digits.
fn are_digits(bytes: &[u8]) -> bool
    ensures { result ≡ list_all is_ascii_digit bytes.now }
{
    bytes.iter().all(|c| c.is_ascii_digit())
}
