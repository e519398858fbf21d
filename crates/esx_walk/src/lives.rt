//! What is kept of the machine under each number.

ghost use Rattle.std.specs.Prelude.{◌≡◌, ◌+◌, ◌<◌, replicate, slice_index_or, IfOk};
ghost use Rattle.esx_types.specs.declared.config.TheConstants.{VM_NUMBERS};
ghost use Rattle.esx_story.specs.Counts.{came_in, lost_in, with_change};
ghost use Rattle.esx_story.specs.Waits.{asked_in};
ghost use Rattle.esx_walk.specs.Account.{no_life, life_in, counted_in, asked_for, set_life, map_from, lived};
ghost use Rattle.esx_walk.specs.Few.{AreFew};

use esx_events::{Answer, Event};
use esx_story::{Asked, Change, Counts, How};
use esx_types::{Rows, VM_NUMBERS};
use std::alloc::{AllocError, Global};

/// What is kept of the machine under a number: how often one was admitted under it, the last rebalance since, what that
/// asked for (none where it was made at level high), and what it gained and lost since its last admission.
#[derive(Clone, Copy, Debug, PartialEq, Eq)]
pub struct Life {
    pub lives: u32,
    pub set: Option<u32>,
    pub asked: Option<Asked>,
    pub counts: Counts,
}

const NO_COUNTS: Counts = Counts {
    first: 0,
    popped: 0,
    swapped_in: 0,
    balloon: 0,
    swapped_out: 0,
    replaced: 0,
    dropped: 0,
};

/// Of a machine that was never admitted.
const NO_LIFE: Life = Life {
    lives: 0,
    set: None,
    asked: None,
    counts: NO_COUNTS,
};

pub(crate) fn no_lives(alloc: Global) -> Result<Vec<Life>, AllocError>
    ensures { IfOk result (λ lives. lives.items ≡ replicate VM_NUMBERS no_life) }
{
    let mut lives = Vec::with_capacity(alloc, VM_NUMBERS)?;
    for _number in 0..VM_NUMBERS {
        lives.push(NO_LIFE)?;
    }
    Ok(lives)
}

pub(crate) fn life_at(lives: &Rows<Life>, number: usize) -> Life
    ensures { result ≡ life_in lives.now number }
{
    match lives.as_slice().get(number) {
        Some(life) => *life,
        None => NO_LIFE,
    }
}

/// Counts with one more change.
fn counted(counts: Counts, how: How) -> Counts
    requires { came_in counts + lost_in counts < 4294967295 }
    ensures { result ≡ with_change counts how }
{
    match how {
        How::First => Counts {
            first: counts.first + 1,
            ..counts
        },
        How::Pop => Counts {
            popped: counts.popped + 1,
            ..counts
        },
        How::SwapIn => Counts {
            swapped_in: counts.swapped_in + 1,
            ..counts
        },
        How::Balloon => Counts {
            balloon: counts.balloon + 1,
            ..counts
        },
        How::Swap => Counts {
            swapped_out: counts.swapped_out + 1,
            ..counts
        },
        How::Replaced => Counts {
            replaced: counts.replaced + 1,
            ..counts
        },
        How::Dropped => Counts {
            dropped: counts.dropped + 1,
            ..counts
        },
        _ => counts,
    }
}

/// Counts a change for its machine.
pub(crate) fn count(lives: &mut Rows<Life>, change: &Option<Change>)
    requires { AreFew 4294967294 lives.old }
    ensures { lives.new ≡ counted_in lives.old change.now }
{
    let Some(change) = change else {
        return;
    };
    let number = usize::from(change.vm.number());
    let life = life_at(lives, number);
    let counts = counted(life.counts, change.how);
    lives.set(number, Life { counts, ..life });
}

/// What a rebalance asked for that took so much of a machine.
fn asked_in(answer: &Answer, given: u32) -> Option<Asked>
    ensures { result ≡ asked_in answer.now given }
{
    match answer {
        Answer::Rebalanced { need, revoked } => Some(Asked {
            need: *need,
            revoked: *revoked,
            given,
        }),
        _ => None,
    }
}

/// The number at a place, 0 where there is none.
pub(crate) fn number_at(numbers: &Rows<u32>, place: usize) -> u32
    ensures { result ≡ slice_index_or numbers.now place 0 }
{
    match numbers.as_slice().get(place) {
        Some(number) => *number,
        None => 0,
    }
}

fn asked_for(answer: &Answer, given: &Option<Rows<u32>>, number: usize) -> Option<Asked>
    ensures { result ≡ asked_for answer.now given.now number }
{
    match given {
        None => None,
        Some(given) => asked_in(answer, number_at(given, number)),
    }
}

fn set_all(lives: &mut Rows<Life>, at: u32, answer: &Answer, given: &Option<Rows<u32>>)
    ensures { lives.new ≡ map_from (set_life at answer.now given.now) 0 lives.old }
{
    for number in 0..lives.len() {
        let life = life_at(lives, number);
        let asked = asked_for(answer, given, number);
        lives.set(
            number,
            Life {
                set: Some(at),
                asked,
                ..life
            },
        );
    }
}

/// A machine that is admitted begins anew, and a rebalance sets the targets of all.
pub(crate) fn live(
    lives: &mut Rows<Life>,
    at: u32,
    event: &Event,
    answer: &Answer,
    given: &Option<Rows<u32>>,
)
    requires { AreFew 4294967294 lives.old }
    ensures { lives.new ≡ lived lives.old at event.now answer.now given.now }
{
    match event {
        Event::Admit { vm, .. } => {
            let number = usize::from(vm.number());
            let life = life_at(lives, number);
            lives.set(
                number,
                Life {
                    lives: life.lives + 1,
                    set: None,
                    asked: None,
                    counts: NO_COUNTS,
                },
            );
        }
        Event::Rebalance => set_all(lives, at, answer, given),
        _ => {}
    }
}
