//! Random words, and what is drawn by them.

ghost use Rattle.std.specs.Prelude.{◌≡◌, ◌<◌, ◌%◌, IfOk, OnOk};
ghost use Rattle.esx_workers.specs.Draws.{word, after_word, words_of, after_words};
ghost use Rattle.esx_workers.specs.Machines.{drawn, after_drawn};

use crate::machine::Machine;
use rand_core::utils::NextWord;
use rand_pcg::Pcg64;
use std::alloc::{AllocError, Global};

/// A number below `n`: the generator's next word, modulo `n`.
pub fn draw(rng: &mut Pcg64, n: u64) -> u64
    requires { 0 < n }
    ensures value { result ≡ word rng.old % n }
    ensures below { result < n }
    ensures rng { rng.new ≡ after_word rng.old }
{
    draw_word(rng) % n
}

/// The generator's next word.
#[tactic(auto, unfolding(crate::specs::Draws::word, crate::specs::Draws::after_word))]
pub fn draw_word(rng: &mut Pcg64) -> u64
    ensures value { result ≡ word rng.old }
    ensures rng { rng.new ≡ after_word rng.old }
{
    rng.next_word()
}

/// The generator's next words, so many of them. Room for all, 8 bytes a word, is asked for before the first is drawn.
pub fn draw_words(alloc: Global, rng: &mut Pcg64, count: u32) -> Result<Vec<u64>, AllocError>
    ensures words { IfOk result (λ words. words.items ≡ words_of count rng.old) }
    ensures rng { OnOk result (rng.new ≡ after_words count rng.old) }
{
    let mut words = Vec::with_capacity(alloc, count as usize)?;
    for _ in 0..count {
        words.push(draw_word(rng))?;
    }
    Ok(words)
}

/// A machine by its place, where there are any.
pub fn draw_machine(machines: &[Machine], rng: &mut Pcg64) -> Option<Machine>
    ensures machine { result ≡ drawn machines.now rng.old }
    ensures rng { rng.new ≡ after_drawn machines.now rng.old }
{
    if machines.is_empty() {
        return None;
    }
    let place = draw(rng, machines.len() as u64);
    Some(machines[place as usize])
}
