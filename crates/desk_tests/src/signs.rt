//! Numbers that tell apart the calls and the replies of these tests: a kind, and two numbers of it.

use esx_events::{Answer, Call, Event, PageState, Reply, Said};
use esx_types::VmId;

fn signs_of_page(kind: u32, vm: VmId, page: u32) -> [u32; 3] {
    [kind, u32::from(vm.number()), page]
}

fn signs_of_event(event: &Event) -> [u32; 3] {
    match event {
        Event::Admit { vm, .. } => signs_of_page(1, *vm, 0),
        Event::Start { vm } => signs_of_page(2, *vm, 0),
        Event::Read { vm, page, .. } => signs_of_page(3, *vm, *page),
        Event::Write { vm, page, .. } => signs_of_page(4, *vm, *page),
        _ => [0, 0, 0],
    }
}

pub fn signs_of_call(call: &Call) -> [u32; 3] {
    match call {
        Call::Do { event } => signs_of_event(event),
        Call::Undo { count } => [5, *count, 0],
        Call::Redo { count } => [6, *count, 0],
        Call::OfPage { vm, page } => signs_of_page(7, *vm, *page),
        Call::Sum => [8, 0, 0],
        Call::Stand => [9, 0, 0],
        _ => [0, 0, 0],
    }
}

/// The first byte, where the answer has one.
pub fn first_byte(answer: &Answer) -> Option<u8> {
    match answer {
        Answer::Bytes { bytes } => bytes.as_slice().first().copied(),
        _ => None,
    }
}

fn signs_of_answer(answer: &Answer) -> [u32; 3] {
    match first_byte(answer) {
        Some(byte) => [1, 1, u32::from(byte)],
        None => [1, 0, 0],
    }
}

fn signs_of_state(state: PageState) -> [u32; 3] {
    match state {
        PageState::Private { frame } => [2, 1, frame],
        PageState::Out { slot } => [2, 2, slot],
        _ => [2, 0, 0],
    }
}

pub fn signs_of_reply(reply: &Reply) -> [u32; 3] {
    match &reply.said {
        Said::Done { answer } => signs_of_answer(answer),
        Said::Page { state } => signs_of_state(*state),
        Said::Refused { refusal } => [3, u32::from(refusal.number()), 0],
        Said::Stand { stand } => [4, stand.node, stand.depth],
        Said::Sum { sum } => [5, sum.private, sum.free],
        _ => [0, 0, 0],
    }
}
