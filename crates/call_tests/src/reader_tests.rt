//! Texts of graphs that are read and written back, each in its own format.

use graph_model::graph::Graph;
use graph_reader::read_graph;
use graph_writer::put_graph;
use realm_io::SureSink;
use std::alloc::Global;
use std::test::Fail;

/// Texts of graphs.
const ACCEPTED: [&[u8]; 8] = [
    b"realm 1\nend\n",
    b"realm 1\nspace s 0..3\ninst a s x\nf = fill a.x s 18446744073709551615\nend\n",
    b"realm 1\nspace s 0..1\ninst a s x,y\nu = user\nf = fill a.x s 5 on u\ng = fill a.y s 6\nt = trigger u on g\nend\n",
    b"realm 1\nspace s 0..1048575\ninst a s b,c,d,e\nlock l\nbarrier n 8192 max 7\nq = acquire l\nr = release q on q\np = phase n\nw = arrive p 3\nend\n",
    b"realm 1\nspace p 0..1,4..5\nspace one 0..0\ninst a p x,y\ninst b p z\ninst c one d\nu = user\nk = cancel u\ni = task iota a.x p 10\nj = task axpy a.x a.y p 2 on i\nh = task hist a.x c.d p one\nl = task scan a.x b.z p\nm = merge i j h\nn = mergei k m\no = task dot a.x a.y c.d p one on n\ne = task expect c.d one 0 9\ng = task gather a.x a.y b.z p p\nr = reduce max a.x b.z p\ns = task stencil a.x a.y p p\nt = copy a.x a.y p on r\nend\n",
    b"realm 1\nbarrier b 1 sum 0\np = phase b\na = arrive p 1\nend\n",
    b"realm 2\nbarrier b 8192 sum 0\np = phase b\nq = phase b\nv = arrive p 5 times 2\nw = arrive p 1 on v\nx = arrive q 3 times 8192 on w\nend\n",
    b"realm 3\nspace _Points 0..3\ninst From_c_12 _Points X,x\nABCDEFGHIJKLMNOPQRSTUVWXYZ_abcdefghijklmnopqrstuvwxyz0123456789 = fill From_c_12.X _Points 7\nend\n",
];

/// The text that is written for a graph.
fn written(alloc: Global, graph: &Graph, length: usize) -> Result<Vec<u8>, Fail> {
    let mut sink = SureSink::new(vec![in alloc; 0u8; length]?);
    put_graph(&mut sink, graph)?;
    Ok(Vec::from_slice(alloc, sink.kept())?)
}

#[test]
fn writes_texts_back(rt: HostRuntime) -> Result<(), Fail> {
    for text in ACCEPTED {
        let graph = read_graph(rt.alloc(), text)?;
        let back = written(rt.alloc(), &graph, text.len())?;
        assert_eq!(rt; back.as_slice(), text);
    }
    Ok(())
}
