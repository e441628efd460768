//! Ranges of consecutive vertices.

ghost use Rattle.std.specs.Prelude.{◌≡◌, OnErr, OnOk};
ghost use Rattle.fb_layers.specs.Runs.{add_vertex};

use fb_graph::NoMemory;

/// Adds a vertex to ranges of smaller ones: it goes on the last range, or begins one. If memory runs out they are unchanged.
pub fn add_vertex(ranges: &mut Vec<(u64, u64)>, vertex: u32) -> Result<(), NoMemory>
    ensures added { OnOk result (ranges.new.items ≡ add_vertex ranges.old.items vertex) }
    ensures unchanged { OnErr result (ranges.new.items ≡ ranges.old.items) }
{
    let vertex = u64::from(vertex);
    let count = ranges.len();
    if 0 < count && ranges[count - 1].1 == vertex {
        ranges[count - 1].1 = vertex + 1;
        return Ok(());
    }
    ranges.push((vertex, vertex + 1))?;
    Ok(())
}
