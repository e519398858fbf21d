//! The arena: slots for entries, each in one chain. What is called a key here is the number that an entry
//! stands under.

ghost use Rattle.std.specs.Prelude.{◌≡◌, ◌≢◌, ◌-◌, ◌%◌, ◌<◌, ℕ, length, IsTrue, ◌↔◌, MatchOption, ⊤, slice_set, replicate, None, IfOk, IfNone, OnSome, ◌+◌, ◌≤◌, ◌^◌};
ghost use Rattle.std.specs.Int.{IsPowerOfTwo};
ghost use Rattle.esx_keys.specs.Kinds.{kind_of};
ghost use Rattle.esx_keys.specs.Table.{entry_count, entry_at, with_entry_at, without_entry_at};
ghost use Rattle.esx_keys.specs.Arena.{IsLinked, IsArena, Holds, group_of, slot_at, chain_at, no_chain, AreFree, table_of};

use crate::entry::{Entry, Kind};
use std::alloc::{AllocError, Global};

/// A place for an entry, and the next place of its chain. The last place of a chain names none.
#[derive(Clone, Copy)]
pub(crate) struct Slot {
    pub(crate) key: u64,
    pub(crate) entry: Option<Entry>,
    pub(crate) next: u32,
}

/// A chain of slots: its first slot, if it has one, and how many there are.
#[derive(Clone, Copy)]
pub(crate) struct Chain {
    pub(crate) first: u32,
    pub(crate) len: u32,
}

impl Slot {
    fn holds(&self, key: u64, kind: Kind) -> bool
        ensures { IsTrue result ↔ Holds self.now key kind }
    {
        match self.entry {
            Some(entry) => self.key == key && entry.kind() == kind,
            None => false,
        }
    }
}

/// Slots with no entry, each naming the next.
pub(crate) fn free_slots(alloc: Global, room: u32) -> Result<Vec<Slot>, AllocError>
    ensures count { IfOk result (λ slots. length slots.items ≡ room) }
    ensures free { IfOk result (λ slots. AreFree slots.items) }
{
    let mut slots = Vec::with_capacity(alloc, room as usize)?;
    for at in 0..room {
        slots.push(Slot {
            key: 0,
            entry: None,
            next: at + 1,
        })?;
    }
    Ok(slots)
}

/// An empty chain for each head, and the chain of all the slots.
pub(crate) fn empty_chains(alloc: Global, heads: usize, room: u32) -> Result<Vec<Chain>, AllocError>
    requires { heads ≤ 2 ^ 32 }
    ensures { IfOk result (λ chains.
        chains.items ≡ slice_set (replicate (heads + 1) no_chain) heads (record { first = 0; len = room })) }
{
    let mut chains = vec![in alloc; Chain { first: 0, len: 0 }; heads + 1]?;
    chains[heads] = Chain {
        first: 0,
        len: room,
    };
    Ok(chains)
}

/// The head of a key.
pub(crate) fn head_of(key: u64, heads: usize) -> usize
    requires { IsPowerOfTwo heads }
    ensures { result ≡ key % heads }
{
    (key & (heads as u64 - 1)) as usize
}

/// The slot of the entry of this kind under this key.
fn find(slots: &[Slot], chains: &[Chain], key: u64, kind: Kind) -> Option<usize>
    requires linked { IsLinked (length chains.now - 1) slots.now chains.now }
    requires heads { IsPowerOfTwo (length chains.now - 1) }
    ensures within { MatchOption result ⊤ (λ at. at < length slots.now) }
    ensures found { MatchOption result ((i : ℕ) → Holds (slot_at slots.now i) key kind → ⊥)
        (λ at. Holds (slot_at slots.now at) key kind) }
{
    let chain = chains[head_of(key, chains.len() - 1)];
    let mut at = chain.first as usize;
    for _passed in 0..chain.len {
        let slot = &slots[at];
        if slot.holds(key, kind) {
            return Some(at);
        }
        at = slot.next as usize;
    }
    None
}

/// Moves the first slot of one chain to the front of another, with this content.
fn move_first(
    slots: &mut [Slot],
    chains: &mut [Chain],
    from: usize,
    to: usize,
    key: u64,
    entry: Option<Entry>,
)
    requires linked { IsLinked (length chains.old - 1) slots.old chains.old }
    requires from_within { from < length chains.old }
    requires from_filled { 0 < (chain_at chains.old from).len }
    requires to_right { to ≡ group_of (length chains.old - 1) key entry }
    requires apart { from ≢ to }
    ensures linked { IsLinked (length chains.new - 1) slots.new chains.new }
    ensures chain_count { length chains.new ≡ length chains.old }
    ensures written { slots.new ≡ slice_set slots.old (chain_at chains.old from).first
        (record { key = key; entry = entry; next = (chain_at chains.old to).first }) }
{
    let source = chains[from];
    let target = chains[to];
    let slot = &mut slots[source.first as usize];
    chains[from] = Chain {
        first: slot.next,
        len: source.len - 1,
    };
    chains[to] = Chain {
        first: source.first,
        len: target.len + 1,
    };
    *slot = Slot {
        key,
        entry,
        next: target.first,
    };
}

/// The entry of this kind under this key.
pub(crate) fn look_up(slots: &[Slot], chains: &[Chain], key: u64, kind: Kind) -> Option<Entry>
    requires { IsArena slots.now chains.now }
    ensures { result ≡ entry_at (table_of slots.now) key kind }
{
    let at = find(slots, chains, key, kind)?;
    slots[at].entry
}

/// Puts an entry into the first free slot.
pub(crate) fn insert(slots: &mut [Slot], chains: &mut [Chain], key: u64, entry: Entry)
    requires arena { IsArena slots.old chains.old }
    requires room { entry_count (table_of slots.old) < length slots.old }
    requires vacant { entry_at (table_of slots.old) key (kind_of entry) ≡ None }
    ensures arena { IsArena slots.new chains.new }
    ensures table { table_of slots.new ≡ with_entry_at (table_of slots.old) key entry }
    ensures room { length slots.new ≡ length slots.old }
    ensures count { entry_count (table_of slots.new) ≡ entry_count (table_of slots.old) + 1 }
{
    let free = chains.len() - 1;
    let head = head_of(key, free);
    move_first(slots, chains, free, head, key, Some(entry));
}

/// Takes out an entry. The first entry of its chain comes into its slot, and that one's slot is free.
pub(crate) fn remove(
    slots: &mut [Slot],
    chains: &mut [Chain],
    key: u64,
    kind: Kind,
) -> Option<Entry>
    requires { IsArena slots.old chains.old }
    ensures arena { IsArena slots.new chains.new }
    ensures value { result ≡ entry_at (table_of slots.old) key kind }
    ensures table { table_of slots.new ≡ without_entry_at (table_of slots.old) key kind }
    ensures room { length slots.new ≡ length slots.old }
    ensures none { IfNone result (table_of slots.new ≡ table_of slots.old) }
    ensures gone { entry_at (table_of slots.new) key kind ≡ None }
    ensures count { OnSome result (entry_count (table_of slots.new) + 1 ≡ entry_count (table_of slots.old)) }
{
    let at = find(slots, chains, key, kind)?;
    let taken = slots[at];
    let free = chains.len() - 1;
    let head = head_of(key, free);
    let first = slots[chains[head].first as usize];
    slots[at] = Slot {
        key: first.key,
        entry: first.entry,
        next: taken.next,
    };
    move_first(slots, chains, head, free, 0, None);
    taken.entry
}
