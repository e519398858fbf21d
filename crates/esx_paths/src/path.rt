//! The path to a node of a session.

ghost use Rattle.std.specs.Prelude.{◌≤◌, length, IfOk};
ghost use Rattle.esx_paths.specs.Ways.{LeadsUp, TellsPath};

use crate::makers::{Maker, RefusedCall};
use crate::mets::{Met, part};
use crate::way::{Waypoint, nodes_of, way_to};
use esx_types::{Config, Rows};
use std::alloc::{AllocError, Global};

/// The path to a node.
#[derive(Debug, Drop)]
pub struct Path {
    /// The site as the session opened it.
    pub site: Config,
    /// How many calls the session has.
    pub calls: u32,
    /// How many nodes they made, on the path or elsewhere.
    pub nodes: u64,
    pub node: u32,
    /// The events of the path, in order.
    pub waypoints: Rows<Waypoint>,
    /// The refusals that were met on the path, at the opening or behind any of its events, whenever the cursor was there.
    pub mets: Rows<Met>,
    /// How many refusals were met at other nodes.
    pub elsewhere: u64,
}

/// The path to a node, from what made each node and what was refused.
pub(crate) fn path_from(
    alloc: Global,
    site: Config,
    calls: u32,
    makers: Vec<Maker>,
    refused: Vec<RefusedCall>,
    node: u32,
) -> Result<Path, AllocError>
    requires up { LeadsUp makers.items }
    requires fits { node ≤ length makers.items }
    ensures { IfOk result (TellsPath site calls makers.items refused.items node) }
{
    let nodes = makers.len() as u64;
    let waypoints = way_to(alloc, makers.as_slice(), node)?;
    drop(makers);
    let line = nodes_of(alloc, waypoints.as_slice())?;
    let (mets, elsewhere) = part(alloc, line.as_slice(), refused)?;
    Ok(Path {
        site,
        calls,
        nodes,
        node,
        waypoints: Rows::from_vec(waypoints),
        mets: Rows::from_vec(mets),
        elsewhere,
    })
}
