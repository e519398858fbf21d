//! The table of entries: shared frames under keys, hints under shorts.

ghost use Rattle.std.specs.Prelude.{◌≡◌, ◌+◌, ◌<◌, None, IfOk, IfSome, IfNone, OnSome};
ghost use Rattle.std.specs.FinMap as map;
ghost use Rattle.esx_formulas.specs.Key.{short_of};
ghost use Rattle.esx_keys.specs.Kinds.{kind_of, number_of};
ghost use Rattle.esx_keys.specs.Table.{no_entries, entry_count, entry_under, with_entry, without_entry, head_count, chain_length};

use crate::arena::{self, Chain, Slot};
use crate::entry::{Entry, Kind};
use esx_formulas::short_of;
use esx_types::VmId;
use std::alloc::{AllocError, Global};
use std::marker::Model;

/// Entries under content keys: one shared frame at most under a key, and one hint at most under its short, the
/// upper 32 bits. So keys with one short have one hint, and each a shared frame of its own.
#[derive(Drop)]
pub struct Keys {
    slots: Vec<Slot>,
    /// A chain for each head, and the chain of the free slots last.
    chains: Vec<Chain>,
}

/// The number that an entry of a kind stands under: a shared frame under the whole key, a hint under the
/// key's short.
fn number_of(key: u64, kind: Kind) -> u64
    ensures { result ≡ number_of key kind }
{
    match kind {
        Kind::Shared => key,
        Kind::Hint => u64::from(short_of(key)),
    }
}

impl Model for Keys {
    ghost use Rattle.esx_keys.specs.Table.{KeyTable, key_table_code};

    ghost Value = { KeyTable };

    ghost coded = { key_table_code };

    ghost use Rattle.esx_keys.specs.Arena.{table_of, IsArena};

    ghost view = { λ a. table_of a.slots.items };

    ghost invariant = { λ a. IsArena a.slots.items a.chains.items };
}

impl Keys {
    /// A table with room for `room` entries.
    pub fn new(alloc: Global, room: u32) -> Result<Keys, AllocError>
        ensures table { IfOk result (λ t. t ≡ no_entries room) }
        ensures count { IfOk result (λ t. entry_count t ≡ 0) }
    {
        let heads = (room as usize).next_power_of_two();
        let chains = arena::empty_chains(alloc, heads, room)?;
        let slots = arena::free_slots(alloc, room)?;
        Ok(Keys { slots, chains })
    }

    /// The frame that is shared under a key.
    pub fn shared(&self, key: u64) -> Option<u32>
        ensures { result ≡ map.get self.now.shared key }
    {
        match self.entry(key, Kind::Shared)? {
            Entry::Shared { frame } => Some(frame),
            Entry::Hint { .. } => None,
        }
    }

    /// The page that is the hint under a key's short.
    pub fn hint(&self, key: u64) -> Option<(VmId, u32)>
        ensures { result ≡ map.get self.now.hints (short_of key) }
    {
        match self.entry(key, Kind::Hint)? {
            Entry::Hint { vm, page } => Some((vm, page)),
            Entry::Shared { .. } => None,
        }
    }

    fn entry(&self, key: u64, kind: Kind) -> Option<Entry>
        ensures { result ≡ entry_under self.now key kind }
    {
        let number = number_of(key, kind);
        arena::look_up(&self.slots, &self.chains, number, kind)
    }

    /// Puts a shared frame under a key, or a hint under a key's short.
    pub fn put(&mut self, key: u64, entry: Entry)
        requires room { entry_count self.old < self.old.room }
        requires vacant { entry_under self.old key (kind_of entry) ≡ None }
        ensures table { self.new ≡ with_entry self.old key entry }
        ensures room { self.new.room ≡ self.old.room }
        ensures count { entry_count self.new ≡ entry_count self.old + 1 }
    {
        let number = number_of(key, entry.kind());
        arena::insert(&mut self.slots, &mut self.chains, number, entry);
    }

    /// Takes out the entry that a look-up of a kind finds under a key.
    pub fn take(&mut self, key: u64, kind: Kind) -> Option<Entry>
        ensures value { result ≡ entry_under self.old key kind }
        ensures table { self.new ≡ without_entry self.old key kind }
        ensures room { self.new.room ≡ self.old.room }
        ensures none { IfNone result (self.new ≡ self.old) }
        ensures kind { IfSome result (λ entry. kind_of entry ≡ kind) }
        ensures gone { entry_under self.new key kind ≡ None }
        ensures count { OnSome result (entry_count self.new + 1 ≡ entry_count self.old) }
    {
        let number = number_of(key, kind);
        arena::remove(&mut self.slots, &mut self.chains, number, kind)
    }

    /// How many entries stand under a head. The head of a shared frame is its key modulo the number of heads,
    /// the least power of two that is not less than the room, and that of a hint its short modulo this number.
    pub fn chain(&self, head: u32) -> u32
        requires { head < head_count self.now.room }
        ensures { result ≡ chain_length self.now head }
    {
        self.chains[head as usize].len
    }
}
