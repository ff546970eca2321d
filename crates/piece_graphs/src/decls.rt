//! The declarations of a graph of pieces.

ghost use Rattle.std.specs.Prelude.{◌≡◌, ◌<◌, ◌≤◌, ◌+◌, ◌-◌, [], ◌++◌, length, filter, None, IfOk, IfSome, MatchOption, IsTrue, true, false};
ghost use Rattle.graph_terms.specs.declared.format.Format.TheVariants.{Three};
ghost use Rattle.piece_graphs.specs.declared.limits.TheConstants.{MAX_PIECES};
ghost use Rattle.graph_terms.specs.Fits.{decl_fault, with_decl, DeclsFit};
ghost use Rattle.piece_graphs.specs.Items.{of_decls, with_kept, piece_names, is_last};
ghost use Rattle.column_pieces.specs.Pieces.{is_kept, letter, union_name, union_decls, piece_name, piece_decls};

use column_pieces::pieces::Piece;
use graph_copies::copy_of_decl;
use graph_model::graph::Graph;
use graph_terms::decl::Decl;
use graph_terms::format::Format;
use graph_terms::lists::NameList;
use graph_terms::name::Name;
use index_spaces::NoMemory;
use index_spaces::space::Space;
use space_unions::copy_of;
use std::alloc::Global;

/// The declarations of a graph that are no instances, in format 3. `None` exactly where one of them
/// does not fit there.
pub(crate) fn kept_decls(alloc: Global, graph: &Graph) -> Result<Option<Graph>, NoMemory>
    ensures some { IfOk result (λ o. IfSome o (λ g. g ≡ of_decls (filter is_kept graph.now.decls))) }
    ensures none { IfOk result (λ o. o ≡ None → DeclsFit Three [] (filter is_kept graph.now.decls) → ⊥) }
{
    let mut cut = Graph::of_format(alloc, Format::Three);
    for d in 0..graph.decls() {
        if !offer_kept(&mut cut, alloc, graph.decl(d))? {
            return Ok(None);
        }
    }
    Ok(Some(cut))
}

/// Puts unions behind the declarations of a graph. `None` exactly where one of them does not fit there.
pub(crate) fn with_unions(
    alloc: Global,
    mut cut: Graph,
    unions: &[Space],
) -> Result<Option<Graph>, NoMemory>
    requires { cut ≡ of_decls cut.decls }
    ensures some { IfOk result (λ o. IfSome o (λ g. g ≡ of_decls (cut.decls ++ union_decls 0 unions.now))) }
    ensures none { IfOk result (λ o. o ≡ None → DeclsFit Three [] (cut.decls ++ union_decls 0 unions.now) → ⊥) }
{
    for k in 0..unions.len() {
        let decl = union_decl(alloc, k, &unions[k])?;
        if !offer_decl(&mut cut, decl)? {
            return Ok(None);
        }
    }
    Ok(Some(cut))
}

/// Puts a field for each piece behind the declarations of a graph. Pieces over one space that follow
/// one another are fields of one instance. `None` exactly where an instance does not fit there.
pub(crate) fn with_pieces(
    alloc: Global,
    mut cut: Graph,
    pieces: &[Piece],
) -> Result<Option<Graph>, NoMemory>
    requires few { length pieces.now ≤ MAX_PIECES }
    requires bare { cut ≡ of_decls cut.decls }
    ensures some { IfOk result (λ o. IfSome o (λ g. g ≡ of_decls (cut.decls ++ piece_decls 0 pieces.now))) }
    ensures none { IfOk result (λ o. o ≡ None → DeclsFit Three [] (cut.decls ++ piece_decls 0 pieces.now) → ⊥) }
{
    let mut first = 0;
    for k in 0..pieces.len() {
        let space = pieces[k].space;
        if is_last(pieces, k, space) {
            let decl = piece_decl(alloc, first, k, space)?;
            if !offer_decl(&mut cut, decl)? {
                return Ok(None);
            }
            first = k + 1;
        }
    }
    Ok(Some(cut))
}

/// Puts a copy of a declaration that is no instance at the end of a graph without lines, where it
/// fits.
fn offer_kept(graph: &mut Graph, alloc: Global, decl: &Decl) -> Result<bool, NoMemory>
    requires three { graph.old.format ≡ Three }
    requires first { graph.old.lines ≡ [] }
    ensures fits { IfOk result (λ b. IsTrue b → graph.new ≡ with_kept graph.old decl.now) }
    ensures unfit { IfOk result (λ b. b ≡ false → (is_kept decl.now ≡ true) × (decl_fault graph.old decl.now ≡ None → ⊥)) }
{
    match copy_of_kept(alloc, decl)? {
        Some(copy) => offer_decl(graph, copy),
        None => Ok(true),
    }
}

/// Puts a declaration at the end of a graph without lines, where it fits.
fn offer_decl(graph: &mut Graph, decl: Decl) -> Result<bool, NoMemory>
    requires three { graph.old.format ≡ Three }
    requires first { graph.old.lines ≡ [] }
    ensures fits { IfOk result (λ b. IsTrue b → graph.new ≡ with_decl graph.old decl) }
    ensures unfit { IfOk result (λ b. b ≡ false → decl_fault graph.old decl ≡ None → ⊥) }
{
    decl.is_well_formed();
    if graph.decl_fault(&decl).is_some() {
        return Ok(false);
    }
    graph.add_decl(decl)?;
    Ok(true)
}

/// A copy of a declaration that is no instance.
fn copy_of_kept(alloc: Global, decl: &Decl) -> Result<Option<Decl>, NoMemory>
    ensures { IfOk result (λ o. MatchOption o (is_kept decl.now ≡ false) (λ d. (is_kept decl.now ≡ true) × (d ≡ decl.now))) }
{
    match decl {
        Decl::Inst { .. } => Ok(None),
        _ => Ok(Some(copy_of_decl(alloc, decl)?)),
    }
}

/// The declaration of a union.
fn union_decl(alloc: Global, k: usize, space: &Space) -> Result<Decl, NoMemory>
    ensures { IfOk result (λ d. d ≡ Decl.Space (union_name k) space.now) }
{
    let copy = copy_of(alloc, space)?;
    Ok(Decl::Space {
        name: union_name(k),
        space: copy,
    })
}

/// Whether a piece over a space is the last one of its instance: the next one is over another space.
fn is_last(pieces: &[Piece], k: usize, space: u32) -> bool
    requires { k < length pieces.now }
    ensures { result ≡ is_last pieces.now k space }
{
    match pieces.get(k + 1) {
        Some(next) => next.space != space,
        None => true,
    }
}

/// The instance of the pieces from a first number up to a last one, which are over one space.
fn piece_decl(alloc: Global, first: usize, last: usize, space: u32) -> Result<Decl, NoMemory>
    requires order { first ≤ last }
    requires few { last < MAX_PIECES }
    ensures { IfOk result (λ d. d ≡ Decl.Inst (piece_name first) space (piece_names first (last + 1 - first))) }
{
    let fields = piece_names(alloc, first, last + 1)?;
    Ok(Decl::Inst {
        name: piece_name(first),
        space,
        fields,
    })
}

/// The names of the pieces from a first number on, up to an end.
fn piece_names(alloc: Global, first: usize, end: usize) -> Result<NameList, NoMemory>
    requires order { first ≤ end }
    requires few { end ≤ MAX_PIECES }
    ensures { IfOk result (λ v. v ≡ piece_names first (end - first)) }
{
    let mut names = NameList::new(alloc);
    for k in first..end {
        names.push(piece_name(k))?;
    }
    Ok(names)
}

/// The name of a piece: `Piece_` and four letters.
fn piece_name(k: usize) -> Name
    ensures { result ≡ piece_name k }
{
    let mut bytes = *b"Piece_aaaa";
    bytes[6] = letter(k / 4096);
    bytes[7] = letter(k / 256);
    bytes[8] = letter(k / 16);
    bytes[9] = letter(k);
    match Name::in_format(Format::Three, &bytes) {
        Some(name) => name,
        None => unreachable!(),
    }
}

/// The name of a union: `Union_` and four letters.
fn union_name(k: usize) -> Name
    ensures { result ≡ union_name k }
{
    let mut bytes = *b"Union_aaaa";
    bytes[6] = letter(k / 4096);
    bytes[7] = letter(k / 256);
    bytes[8] = letter(k / 16);
    bytes[9] = letter(k);
    match Name::in_format(Format::Three, &bytes) {
        Some(name) => name,
        None => unreachable!(),
    }
}

fn letter(n: usize) -> u8
    ensures { result ≡ letter n }
{
    b'a' + (n % 16) as u8
}
