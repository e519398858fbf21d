//! Which node of a session is meant, and the path to it.

ghost use Rattle.std.specs.Prelude.{◌≡◌, ◌≢◌, IfOk, IfErr, IsErrOf, IsOk};
ghost use Rattle.esx_model.specs.Console.{Session, history};
ghost use Rattle.esx_paths.specs.Pasts.{IsPastOf};
ghost use Rattle.esx_paths.specs.Ats.{node_at, IsPathAt};

use crate::past::Past;
use crate::path::{Path, path_from};
use esx_events::{Name, Refusal};
use std::alloc::AllocError;

/// Which node is meant.
#[derive(Debug, Drop)]
pub enum At {
    /// The one where the session ends.
    End,
    Node { node: u32 },
    /// The one that was given this name.
    Name { name: Name },
}

impl Past {
    /// The node that is meant.
    fn node_at(&self, at: At) -> Result<u32, Refusal>
        ensures { (s : Session) → IsPastOf self.now s → result ≡ node_at at (history s) }
    {
        match at {
            At::End => Ok(self.console.stand().node),
            At::Node { node } => {
                if node as usize <= self.makers.len() {
                    Ok(node)
                } else {
                    Err(Refusal::NoSuchNode)
                }
            }
            At::Name { name } => self
                .console
                .node_of(name.as_str())
                .ok_or(Refusal::NoSuchName),
        }
    }

    /// The path to a node. `NoSuchNode` where no call made the node, `NoSuchName` where none gave the name; a node that was
    /// pruned is there all the same, and so is its name. The tables of the site, and what undoes its events, are given back
    /// before memory is taken for the path.
    pub fn path_to(self, at: At) -> Result<Path, Refusal>
        ensures path { (s : Session) → IsPastOf self s → IfOk result (IsPathAt s at) }
        ensures err { (s : Session) → IsPastOf self s → IfErr result (λ e. e ≢ Refusal.OutOfMemory → node_at at (history s) ≡ Err e) }
        ensures late { (s : Session) → IsPastOf self s → IsErrOf result Refusal.OutOfMemory → IsOk (node_at at (history s)) }
    {
        let node = self.node_at(at)?;
        let alloc = self.alloc;
        drop(self.console);
        match path_from(
            alloc,
            self.site,
            self.calls,
            self.makers,
            self.refused,
            node,
        ) {
            Ok(path) => Ok(path),
            Err(AllocError) => Err(Refusal::OutOfMemory),
        }
    }
}
