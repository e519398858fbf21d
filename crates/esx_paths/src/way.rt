//! The way to a node: up by parents, and told from the opening down.

ghost use Rattle.std.specs.Prelude.{◌≡◌, ◌<◌, ◌≤◌, ◌∷◌, ℕ, length, map, IfOk};
ghost use Rattle.esx_paths.specs.Ways.{LeadsUp, IsWayUp, IsWayTo};

use crate::makers::Maker;
use std::alloc::{AllocError, Global};
use std::mem::size_of;

/// A node of a path, the number of the call that made it, from 1 on, and its caller.
#[derive(Debug, Drop)]
pub struct Waypoint {
    pub node: u32,
    pub call: u32,
    pub caller: u16,
}

const _: () = prove!(size_of::<Waypoint>() == 12);

/// A node and its parents, up to the opening, which is left out.
fn way_up(alloc: Global, makers: &[Maker], node: u32) -> Result<Vec<Waypoint>, AllocError>
    requires up { LeadsUp makers.now }
    requires fits { node ≤ length makers.now }
    ensures { IfOk result (λ ups. IsWayUp makers.now node ups.items) }
{
    let mut ups = Vec::new(alloc);
    let mut node = node;
    while node > 0 {
        let maker = &makers[node as usize - 1];
        ups.push(Waypoint {
            node,
            call: maker.call,
            caller: maker.caller,
        })?;
        node = maker.parent;
    }
    Ok(ups)
}

/// The same from the opening down.
pub(crate) fn way_to(
    alloc: Global,
    makers: &[Maker],
    node: u32,
) -> Result<Vec<Waypoint>, AllocError>
    requires up { LeadsUp makers.now }
    requires fits { node ≤ length makers.now }
    ensures { IfOk result (λ waypoints. IsWayTo makers.now node waypoints.items) }
{
    let mut waypoints = way_up(alloc, makers, node)?;
    waypoints.reverse();
    Ok(waypoints)
}

/// The nodes of a way, the opening first.
pub(crate) fn nodes_of(alloc: Global, waypoints: &[Waypoint]) -> Result<Vec<u32>, AllocError>
    ensures { IfOk result (λ nodes. nodes.items ≡ 0 ∷ map (λ (w : Waypoint). w.node) waypoints.now) }
{
    let mut nodes = Vec::new(alloc);
    nodes.push(0)?;
    for waypoint in waypoints {
        nodes.push(waypoint.node)?;
    }
    Ok(nodes)
}
