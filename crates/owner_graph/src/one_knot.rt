//! Whether one knot would end, if some of the owners in it were weak.
ghost use Rattle.std.specs.Prelude.{◌≡◌, ◌≢◌, ◌↔◌, ◌≤◌, All, IfOk, IsTrue, true};
ghost use Rattle.owner_graph.specs.declared.holding.Holding.{Holding};
ghost use Rattle.owner_graph.specs.Ends.{EndsWithout, is_weakened};
ghost use Rattle.owner_graph.specs.Indices.{IsIndex};
ghost use Rattle.owner_graph.specs.Knots.{KnotsAre};
ghost use Rattle.owner_graph.specs.Labels.{at};
ghost use Rattle.owner_graph.specs.Owners.{IsAmong};

use crate::certificates::one_knot::{is_risen, is_stuck};
use crate::ends::is_cut;
use crate::holding::{Holding, as_index};
use crate::index::{Index, row};
use crate::search::walk::{Knot, Walk};
use crate::weakening::Weakening;
use std::alloc::{AllocError, Global};

/// Whether each vertex of the knot with this least vertex would end, if some of the owners in it
/// were weak (own). A walk back along the others finds a certificate, and where its check passes,
/// this takes time linear in the knot's vertices and the handles on them. It is refused only
/// where a growth of memory was. Conditions: the vertices of all handles are among so many, and
/// what is to be weak is in vertices of the knot.
pub(crate) fn ends_without(
    alloc: Global,
    vertices: u32,
    handles: &[Holding],
    knots: &[usize],
    index: &Index,
    walk: &mut Walk,
    least: u32,
    weakening: Weakening,
) -> Result<bool, AllocError>
    requires among { All (IsAmong vertices) handles.now }
    requires knots { KnotsAre vertices handles.now knots.now }
    requires index { IsIndex vertices handles.now knots.now index.now }
    requires least { (1 ≤ least) × (least ≤ vertices) }
    requires own { at knots.now least ≡ least }
    requires inside { (h : Holding) → is_weakened knots.now weakening h ≡ true
        → (h.from ≢ 0) × (at knots.now h.from ≡ least) }
    ensures { IfOk result (λ is. IsTrue is ↔ EndsWithout vertices handles.now
        (is_weakened knots.now weakening) least) }
{
    let knot = Knot { least, weakening };
    let members = row(index.members.as_slice(), as_index(least));
    walk.run(index, knots, knot, members)?;
    if is_risen(index, knots, walk, knot, members) {
        return Ok(true);
    }
    if is_stuck(vertices, index, knots, walk, knot) {
        return Ok(false);
    }
    is_cut(alloc, vertices, handles, knots, least, weakening)
}
