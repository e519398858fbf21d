//! What made each node of a session, and what was refused.

ghost use Rattle.std.specs.Prelude.{◌≡◌, ◌++◌, ◌<◌, option_map, vec_len, vec_capacity, OnOk};
ghost use Rattle.std.specs.Option.{option_to_list};
ghost use Rattle.esx_paths.specs.Makers.{is_done, refusal_in, access_of, access, made_if, refused_at};

use esx_events::{Call, Event, Refusal, Said};
use esx_types::VmId;
use std::alloc::AllocError;
use std::mem::size_of;

/// What made a node: an event that was accepted at the parent, the call that has this number, from 1 on, and its caller.
#[derive(Debug, Drop)]
pub struct Maker {
    pub parent: u32,
    pub call: u32,
    pub caller: u16,
}

const _: () = prove!(size_of::<Maker>() == 12);

/// A call that was refused: the node where the cursor was, its number, from 1 on, the page that it was to read or to write,
/// with its machine, and why.
#[derive(Debug, Drop)]
pub struct RefusedCall {
    pub node: u32,
    pub call: u32,
    pub access: Option<(VmId, u32)>,
    pub refusal: Refusal,
}

/// Was an event accepted?
pub(crate) fn is_done(said: &Said) -> bool
    ensures { result ≡ is_done said.now }
{
    matches!(said, Said::Done { .. })
}

pub(crate) fn refusal_in(said: &Said) -> Option<Refusal>
    ensures { result ≡ refusal_in said.now }
{
    match said {
        Said::Refused { refusal } => Some(*refusal),
        _ => None,
    }
}

fn access_of(event: &Event) -> Option<(VmId, u32)>
    ensures { result ≡ access_of event.now }
{
    match event {
        Event::Read { vm, page, .. } => Some((*vm, *page)),
        Event::Write { vm, page, .. } => Some((*vm, *page)),
        _ => None,
    }
}

/// The machine and the page that a call is to read or to write.
fn access(call: &Call) -> Option<(VmId, u32)>
    ensures { result ≡ access call.now }
{
    match call {
        Call::Do { event } => access_of(event),
        _ => None,
    }
}

/// Adds what made a node, if one was made.
pub(crate) fn note_maker(makers: &mut Vec<Maker>, done: bool, maker: Maker)
    requires { vec_len makers.old < vec_capacity makers.old }
    ensures { makers.new.items ≡ makers.old.items ++ made_if done maker }
{
    if done {
        makers.push_reserved(maker);
    }
}

/// Adds a call that was refused at a node, if it was.
pub(crate) fn note_refused(
    refused: &mut Vec<RefusedCall>,
    node: u32,
    number: u32,
    call: &Call,
    refusal: Option<Refusal>,
)
    requires { vec_len refused.old < vec_capacity refused.old }
    ensures { refused.new.items ≡ refused.old.items ++ option_to_list (option_map (refused_at node number call.now) refusal) }
{
    if let Some(refusal) = refusal {
        refused.push_reserved(RefusedCall {
            node,
            call: number,
            access: access(call),
            refusal,
        });
    }
}

/// Takes room for one node more, and one refusal.
pub(crate) fn take_room(
    makers: &mut Vec<Maker>,
    refused: &mut Vec<RefusedCall>,
) -> Result<(), AllocError>
    ensures makers { makers.new.items ≡ makers.old.items }
    ensures refused { refused.new.items ≡ refused.old.items }
    ensures room { OnOk result ((vec_len makers.new < vec_capacity makers.new) × (vec_len refused.new < vec_capacity refused.new)) }
{
    makers.reserve(1)?;
    refused.reserve(1)
}
