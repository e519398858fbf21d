//! The scene at the cursor, as the plain program has it: a step after another, or a path anew.

ghost use Rattle.std.specs.Prelude.{IfOk};
ghost use Rattle.esx_types.specs.Ranges.{IsConfig};
ghost use Rattle.esx_model.specs.sound.Sound.{IsSound};
ghost use Rattle.esx_model.specs.Replay.{next};
ghost use Rattle.esx_plain.specs.Runs.{Steps};

use crate::copies::copy_scene;
use crate::fault::Fault;
use esx_events::{Answer, Event, Refusal};
use esx_level::Thresholds;
use esx_model::{Book, Scene, Site};
use esx_plain::{replay, run};
use esx_steps::{free_count, step};
use esx_types::{Config, Level};
use std::alloc::{AllocError, Global};
use std::marker::Model;

/// A scene that some events lead to. Nothing keeps a frame table, a count or a key in it.
#[derive(Drop)]
pub struct Plain {
    alloc: Global,
    config: Config,
    scene: Scene,
}

impl Model for Plain {
    ghost use Rattle.esx_types.specs.Ranges.{IsConfig};
    ghost use Rattle.esx_model.specs.sound.Sound.{IsSound};
    ghost use Rattle.esx_model.specs.declared.scene.Scene.{Scene};

    ghost Value = { Scene };

    ghost view = { λ p. p.scene };

    ghost invariant = { λ p. IsConfig p.config × IsSound p.config p.scene.site };
}

/// One event, and the level after it.
#[tactic(auto, unfolding(esx_model::specs::Replay::next), using(esx_plain::proofs::Paths::ok_settled))]
fn next(
    alloc: Global,
    config: &Config,
    scene: Scene,
    event: &Event,
) -> Result<(Answer, Scene), Refusal>
    requires config { IsConfig config.now }
    requires sound { IsSound config.now scene.site }
    ensures { Steps result (next config.now scene event.now) }
{
    let Scene { site, level } = scene;
    let (answer, site) = step(alloc, config, site, level, event)?;
    let free = free_count(&site, config.frames) as u32;
    let level = Thresholds::of(*config).next(level, free);
    Ok((answer, Scene { site, level }))
}

/// One event; it leads from a sound site to a sound one.
fn sound_next(
    alloc: Global,
    config: &Config,
    scene: Scene,
    event: &Event,
) -> Result<(Answer, Scene), Refusal>
    requires config { IsConfig config.now }
    requires sound { IsSound config.now scene.site }
    ensures { IfOk result (λ r. IsSound config.now r.1.site) }
{
    match next(alloc, config, scene, event) {
        Ok((answer, after)) => Ok((answer, after)),
        Err(refusal) => Err(refusal),
    }
}

impl Plain {
    /// The scene that a path leads to.
    pub fn at_end_of(alloc: Global, config: Config, path: &[Event]) -> Result<Plain, Fault>
        requires { IsConfig config }
    {
        match run(alloc, &config, path) {
            Ok(scene) => Ok(Plain {
                alloc,
                config,
                scene,
            }),
            Err(_) => Err(Fault::Path),
        }
    }

    /// The scene that another path of the same site leads to.
    pub fn anew(&self, path: &[Event]) -> Result<Plain, Fault> {
        Plain::at_end_of(self.alloc, self.config, path)
    }

    pub fn copy(&self) -> Result<Plain, AllocError> {
        Ok(Plain {
            alloc: self.alloc,
            config: self.config,
            scene: copy_scene(self.alloc, &self.scene)?,
        })
    }

    pub fn alloc(&self) -> Global {
        self.alloc
    }

    pub fn config(&self) -> &Config {
        &self.config
    }

    pub fn site(&self) -> &Site {
        &self.scene.site
    }

    pub fn level(&self) -> Level {
        self.scene.level
    }

    /// What an event answers here, and the scene after it; or why it is refused.
    pub fn after(&self, event: &Event) -> Result<Result<(Answer, Plain), Refusal>, AllocError> {
        let scene = copy_scene(self.alloc, &self.scene)?;
        match sound_next(self.alloc, &self.config, scene, event) {
            Ok((answer, scene)) => Ok(Ok((
                answer,
                Plain {
                    alloc: self.alloc,
                    config: self.config,
                    scene,
                },
            ))),
            Err(Refusal::OutOfMemory) => Err(AllocError),
            Err(refusal) => Ok(Err(refusal)),
        }
    }

    /// The book that a path leads to.
    pub fn book_of(&self, path: &[Event]) -> Result<Book, Fault> {
        match replay(self.alloc, &self.config, path) {
            Ok(book) => Ok(book),
            Err(_) => Err(Fault::Path),
        }
    }
}
