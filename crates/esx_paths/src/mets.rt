//! Refusals, by where on a path they were met.

ghost use Rattle.std.specs.Prelude.{◌≡◌, ◌==◌, ◌≤◌, ◌^◌, length, filter_map, IfOk};
ghost use Rattle.std.specs.List.{position_from};
ghost use Rattle.esx_paths.specs.Paths.{met_on};
ghost use Rattle.esx_paths.specs.Ways.{AreDown, AreParted};

use crate::makers::RefusedCall;
use esx_events::Refusal;
use esx_types::VmId;
use std::alloc::{AllocError, Global};

/// A refusal that was met on a path, after so many of its events were accepted: the page that was to be read or written,
/// with its machine, and why.
#[derive(Debug, Drop)]
pub struct Met {
    pub at: u32,
    pub access: Option<(VmId, u32)>,
    pub refusal: Refusal,
}

/// Where a node stands among nodes that rise from the opening.
fn place_of(nodes: &[u32], node: u32) -> Option<u32>
    requires down { AreDown nodes.now }
    requires few { length nodes.now ≤ 2 ^ 32 }
    ensures { result ≡ position_from (λ n. n == node) 0 nodes.now }
{
    match nodes.binary_search(&node) {
        Ok(at) => Some(at as u32),
        Err(_) => None,
    }
}

/// The refusal as it was met on these nodes, if it was.
fn met_on(nodes: &[u32], refused: &RefusedCall) -> Option<Met>
    requires down { AreDown nodes.now }
    requires few { length nodes.now ≤ 2 ^ 32 }
    ensures { result ≡ met_on nodes.now refused.now }
{
    let at = place_of(nodes, refused.node)?;
    Some(Met {
        at,
        access: refused.access,
        refusal: refused.refusal,
    })
}

/// The refusals that were met on nodes, in order of call.
fn mets_of(alloc: Global, nodes: &[u32], refused: &[RefusedCall]) -> Result<Vec<Met>, AllocError>
    requires down { AreDown nodes.now }
    requires few { length nodes.now ≤ 2 ^ 32 }
    ensures { IfOk result (λ mets. mets.items ≡ filter_map (met_on nodes.now) refused.now) }
{
    refused
        .iter()
        .filter_map(|refused| met_on(nodes, refused))
        .collect(alloc)
}

/// The refusals that were met on nodes, in order of place and then of call, and how many were met elsewhere.
pub(crate) fn part(
    alloc: Global,
    nodes: &[u32],
    refused: Vec<RefusedCall>,
) -> Result<(Vec<Met>, u64), AllocError>
    requires down { AreDown nodes.now }
    requires few { length nodes.now ≤ 2 ^ 32 }
    ensures { IfOk result (λ p. AreParted nodes.now refused.items p.0.items p.1) }
{
    let mut mets = mets_of(alloc, nodes, refused.as_slice())?;
    let elsewhere = (refused.len() - mets.len()) as u64;
    drop(refused);
    mets.sort_by_key(|met| met.at)?;
    Ok((mets, elsewhere))
}
