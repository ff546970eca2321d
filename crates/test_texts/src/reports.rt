//! Reports, or what of them is not put together.

use std::alloc::{AllocError, Global};

/// The report of the broken and unbroken paths from a fault.
pub const FAULTY_PATHS_REPORT: &str = "realm-report 1\n\
    op f done triggered\n\
    op k faulted poisoned\n\
    op c cancelled poisoned\n\
    op m cancelled poisoned\n\
    op n done triggered\n\
    op g done triggered\n\
    cells a.x 0..1 7 7\n\
    cells a.y 0..1 9 9\n\
    done\n";

/// What follows the ends in the report of the sums under one reservation.
pub const LOCKED_SUMS_CELLS: &str = "cells a.x 0..1 3 3\n\
    cells a.y 0..1 4 4\n\
    cells a.z 0..1 7 7\n\
    done\n";

/// The front of the report of a text whose lines are all done.
pub fn all_done(alloc: Global, text: &str) -> Result<String, AllocError> {
    let mut report = String::from_str(alloc, "realm-report 1\n")?;
    for line in text.split('\n') {
        if let Some((name, _)) = line.split_once(" = ") {
            report.push_str(format!(in alloc; "op {name} done triggered\n")?.as_str())?;
        }
    }
    Ok(report)
}

/// The cells of all tiles of the stencil after the last step.
fn tile_cells(alloc: Global) -> Result<String, AllocError> {
    let mut text = String::new(alloc);
    let tripled = "59049 59049 59049 59049 59049 59049 59049 59049";
    for k in 0..8u32 {
        let (low, high) = (8 * k, 8 * k + 9);
        let tile = format!(in alloc;
            "cells t{k}.x {low}..{high} 19683 {tripled} 19683\ncells t{k}.y {low}..{high} 0 {tripled} 0\n"
        )?;
        text.push_str(tile.as_str())?;
    }
    Ok(text)
}

/// The report of the stencil over eight tiles, whose text this is.
pub fn tile_report(alloc: Global, text: &str) -> Result<String, AllocError> {
    let ends = all_done(alloc, text)?;
    let phases = "phase p1 8\n\
        phase p2 8\n\
        phase p3 8\n\
        phase p4 8\n\
        phase p5 8\n\
        phase p6 8\n\
        phase p7 8\n\
        phase p8 8\n\
        phase p9 8\n\
        phase p10 8\n";
    let cells = tile_cells(alloc)?;
    format!(in alloc; "{ends}{phases}{cells}cells acc.d 0..0 10460353200\ndone\n")
}
