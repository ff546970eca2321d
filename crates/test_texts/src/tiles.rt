//! Ten steps of a stencil over eight tiles with halos, each step behind a barrier.

ghost use Rattle.std.specs.Prelude.{◌<◌};

use crate::generated::numbered;
use std::alloc::{AllocError, Global};

/// A space for each tile, of points that are counted from its left halo.
fn spaces(alloc: Global, name: &str, low: u32, high: u32) -> Result<String, AllocError>
    requires { (low < 10) × (high < 10) }
{
    let mut text = String::new(alloc);
    for k in 0..8u32 {
        let line = format!(in alloc; "space {name}{k} {}..{}\n", 8 * k + low, 8 * k + high)?;
        text.push_str(line.as_str())?;
    }
    Ok(text)
}

/// The declarations: of each tile its own points, those with its halos, and each halo.
fn declarations(alloc: Global) -> Result<String, AllocError> {
    let own = spaces(alloc, "o", 1, 8)?;
    let with_halos = spaces(alloc, "w", 0, 9)?;
    let left = spaces(alloc, "l", 0, 0)?;
    let right = spaces(alloc, "r", 9, 9)?;
    let tiles = numbered(alloc, 8, "inst t# w# x,y\n")?;
    format!(in alloc;
        "realm 1\n{own}{with_halos}{left}{right}space one 0..0\n{tiles}inst acc one d\nlock gate\nbarrier b 8 sum 0\n"
    )
}

/// The first values of all tiles.
fn first_fills(alloc: Global) -> Result<String, AllocError> {
    let fills = numbered(alloc, 8, "i# = fill t#.x o# 1\n")?;
    let all = numbered(alloc, 8, " i#")?;
    format!(in alloc; "{fills}s0 = merge{all}\n")
}

/// The halos of step `@`, on the event `%`. Those at both ends get the value `$`.
const HALOS: &str = "a@_0 = fill t0.x l0 $ on %\n\
    a@_1 = copy t0.x t1.x l1 on %\n\
    a@_2 = copy t1.x t2.x l2 on %\n\
    a@_3 = copy t2.x t3.x l3 on %\n\
    a@_4 = copy t3.x t4.x l4 on %\n\
    a@_5 = copy t4.x t5.x l5 on %\n\
    a@_6 = copy t5.x t6.x l6 on %\n\
    a@_7 = copy t6.x t7.x l7 on %\n\
    c@_0 = copy t1.x t0.x r0 on %\n\
    c@_1 = copy t2.x t1.x r1 on %\n\
    c@_2 = copy t3.x t2.x r2 on %\n\
    c@_3 = copy t4.x t3.x r3 on %\n\
    c@_4 = copy t5.x t4.x r4 on %\n\
    c@_5 = copy t6.x t5.x r5 on %\n\
    c@_6 = copy t7.x t6.x r6 on %\n\
    c@_7 = fill t7.x r7 $ on %\n";

/// The lines of step `@` below its halos: the stencils, a dot under the reservation, and the phase at
/// which each tile arrives once its values are copied back.
fn below_halos(alloc: Global) -> Result<String, AllocError> {
    let left = numbered(alloc, 8, " a@_#")?;
    let right = numbered(alloc, 8, " c@_#")?;
    let stencils = numbered(alloc, 8, "y@_# = task stencil t#.x t#.y w# o# on h@\n")?;
    let all = numbered(alloc, 8, " y@_#")?;
    let copies = numbered(alloc, 8, "b@_# = copy t#.y t#.x o# on z@\n")?;
    let arrivals = numbered(alloc, 8, "v@_# = arrive p@ 1 on b@_#\n")?;
    let dot = "q@ = acquire gate on m@\n\
        d@ = task dot t0.x t0.y acc.d o0 one on q@\n\
        g@ = mergei d@\n\
        z@ = release q@ on g@\n";
    format!(in alloc;
        "h@ = merge{left}{right}\n{stencils}m@ = merge{all}\n{dot}{copies}p@ = phase b\n{arrivals}"
    )
}

/// The text of the whole graph.
pub fn graph(alloc: Global) -> Result<String, AllocError> {
    let mut text = declarations(alloc)?;
    text.push_str(first_fills(alloc)?.as_str())?;
    let below = below_halos(alloc)?;
    let mut event = String::from_str(alloc, "s0")?;
    let mut value = 1u64;
    for step in 1..11u32 {
        let number = format!(in alloc; "{step}")?;
        let ends = format!(in alloc; "{value}")?;
        let halos = HALOS
            .replace(alloc, '%', event.as_str())?
            .replace(alloc, '$', ends.as_str())?;
        text.push_str(halos.replace(alloc, '@', number.as_str())?.as_str())?;
        text.push_str(below.replace(alloc, '@', number.as_str())?.as_str())?;
        event = format!(in alloc; "p{step}")?;
        value = value.wrapping_mul(3);
    }
    text.push_str("end\n")?;
    Ok(text)
}
