//! Texts of format 3 with comments, and names by the format: which line is refused, counted with the
//! comments, and why.

use graph_reader::{ReadRefusal, read_graph};
use graph_terms::why::Why;
use std::test::Fail;

/// A text that is refused, and where.
#[derive(Drop)]
struct Row {
    text: &'static [u8],
    number: u32,
    why: Why,
}

const REFUSED: [Row; 16] = [
    // no newline behind a comment, and no line behind it
    Row {
        text: b"realm 3\n# a",
        number: 2,
        why: Why::Missing,
    },
    Row {
        text: b"realm 3\n# a\n",
        number: 3,
        why: Why::Missing,
    },
    // what is no comment: a blank or a tab before `#`, a line of a blank, `#` behind words
    Row {
        text: b"realm 3\n # a\nend\n",
        number: 2,
        why: Why::Syntax,
    },
    Row {
        text: b"realm 3\n\t# a\nend\n",
        number: 2,
        why: Why::Syntax,
    },
    Row {
        text: b"realm 3\n \nend\n",
        number: 2,
        why: Why::Syntax,
    },
    Row {
        text: b"realm 3\nu = user\nm = merge u # a\nend\n",
        number: 3,
        why: Why::Name,
    },
    // behind the closing line there is nothing, and above the first neither
    Row {
        text: b"realm 3\n# a\nend\n# b\n",
        number: 4,
        why: Why::Rest,
    },
    Row {
        text: b"realm 3\n\nend\n\n",
        number: 4,
        why: Why::Rest,
    },
    Row {
        text: b"# a\nrealm 3\nend\n",
        number: 1,
        why: Why::Header,
    },
    // numbers count all lines
    Row {
        text: b"realm 3\n# a\n\nu = user\n#\nu = user\nend\n",
        number: 6,
        why: Why::Twice,
    },
    // formats 1 and 2 have no comments
    Row {
        text: b"realm 1\n# a\nend\n",
        number: 2,
        why: Why::Syntax,
    },
    Row {
        text: b"realm 2\n\nend\n",
        number: 2,
        why: Why::Syntax,
    },
    // names: 64 bytes, a digit first, another byte; a capital and 32 bytes in format 2
    Row {
        text: b"realm 3\nlock abcdefghijklmnopqrstuvwxyzABCDEFGHIJKLMNOPQRSTUVWXYZ_0123456789_\nend\n",
        number: 2,
        why: Why::Name,
    },
    Row {
        text: b"realm 3\nlock 0a\nend\n",
        number: 2,
        why: Why::Name,
    },
    Row {
        text: b"realm 2\nlock A\nend\n",
        number: 2,
        why: Why::Name,
    },
    Row {
        text: b"realm 2\nlock abcdefghijklmnopqrstuvwxyzabcdef\nend\n",
        number: 2,
        why: Why::Name,
    },
];

#[test]
fn refuses_by_all_lines(rt: HostRuntime) -> Result<(), Fail> {
    for row in REFUSED {
        match read_graph(rt.alloc(), row.text) {
            Err(ReadRefusal::Line { number, why }) => {
                assert_eq!(rt; number, row.number);
                assert_eq!(rt; why, row.why);
            }
            _ => assert!(rt; false),
        }
    }
    Ok(())
}

/// The same graph with comments and without.
const COMMENTED: &[u8] = b"realm 3\n# first\n\nlock l\n#\xff\x00\nu = user\n\n#end\nend\n";

#[test]
fn passes_comments_over(rt: HostRuntime) -> Result<(), Fail> {
    let graph = read_graph(rt.alloc(), COMMENTED)?;
    assert_eq!(rt; graph.lines(), 1);
    assert_eq!(rt; graph.line(0).name.bytes(), b"u".as_slice());
    Ok(())
}

/// A name of 63 bytes, and names that begin with a capital and with `_`.
const LONG: &[u8] =
    b"realm 3\nlock abcdefghijklmnopqrstuvwxyzABCDEFGHIJKLMNOPQRSTUVWXYZ_0123456789\nlock A\nlock _\nend\n";

#[test]
fn reads_long_names(rt: HostRuntime) -> Result<(), Fail> {
    let graph = read_graph(rt.alloc(), LONG)?;
    assert_eq!(rt; graph.decls(), 3);
    Ok(())
}
