//! What a line of text is read as.

ghost use Rattle.std.specs.Prelude.{◌≡◌, [], None, IsTrue};
ghost use Rattle.graph_terms.specs.Fits.{decl_fault, line_fault, is_decl_named, IsLine};
ghost use Rattle.graph_terms.specs.Name.{is_name_in};
ghost use Rattle.graph_reader.specs.Reading.{IsDeclOffered, IsOffered};

use graph_model::graph::Graph;
use graph_terms::decl::Decl;
use graph_terms::verb::Line;
use graph_terms::why::Why;

/// Why a line of text gives no item.
#[derive(Clone, Copy)]
pub(crate) enum ItemError {
    Refused(Why),
    NoMemory,
}

/// Puts a line at the end, where it fits; else the graph stays as it was.
pub(crate) fn offer(graph: &mut Graph, line: Line) -> Result<(), ItemError>
    requires { line_fault graph.old line ≡ None → IsLine line × IsTrue (is_name_in graph.old.format line.name) }
    ensures { IsOffered graph.old line graph.new result }
{
    match graph.offer_line(line) {
        Ok(None) => Ok(()),
        Ok(Some(why)) => Err(ItemError::Refused(why)),
        Err(_) => Err(ItemError::NoMemory),
    }
}

/// Puts a declaration at the end, where it fits; else the graph stays as it was.
pub(crate) fn offer_decl(graph: &mut Graph, decl: Decl) -> Result<(), ItemError>
    requires first { graph.old.lines ≡ [] }
    requires named { IsTrue (is_decl_named graph.old.format decl) }
    ensures { IsDeclOffered graph.old decl graph.new result }
{
    decl.is_well_formed();
    match graph.offer_decl(decl) {
        Ok(None) => Ok(()),
        Ok(Some(why)) => Err(ItemError::Refused(why)),
        Err(_) => Err(ItemError::NoMemory),
    }
}
