//! Whether two replies are the same.

use esx_events::{Answer, NameRow, Refusal, Reply, Said, Sides};

fn same_answer(one: &Answer, other: &Answer) -> bool {
    match (one, other) {
        (Answer::Admitted { reserves: a }, Answer::Admitted { reserves: b }) => {
            a.get() == b.get()
        }
        (
            Answer::Started {
                running,
                frame,
                held,
                overhead,
            },
            Answer::Started {
                running: r,
                frame: f,
                held: h,
                overhead: o,
            },
        ) => *running == *r && *frame == *f && *held == *h && *overhead == *o,
        (Answer::Bytes { bytes: a }, Answer::Bytes { bytes: b }) => a.as_slice() == b.as_slice(),
        (Answer::Done, Answer::Done) | (Answer::Gone, Answer::Gone) => true,
        (Answer::Looked { scanned: a }, Answer::Looked { scanned: b }) => *a == *b,
        _ => match (numbers(one), numbers(other)) {
            (Some(a), Some(b)) => a == b,
            _ => false,
        },
    }
}

/// The numbers of an answer that has nothing else, the first by its kind.
fn numbers(answer: &Answer) -> Option<[u32; 4]> {
    match answer {
        Answer::Goal { goal, lent, epoch } => Some([0, *goal, *lent, *epoch]),
        Answer::Reset { epoch } => Some([1, *epoch, 0, 0]),
        Answer::Lent { lent, goal } => Some([2, *lent, *goal, 0]),
        Answer::TakenBack { lent } => Some([3, *lent, 0, 0]),
        Answer::Opened { length, pages } => Some([4, *length, *pages, 0]),
        Answer::Rebalanced { need, revoked } => Some([5, *need, *revoked, 0]),
        Answer::PagedOut { page, slot } => Some([6, *page, *slot, 0]),
        Answer::SharedOut { page, frame } => Some([7, *page, *frame, 0]),
        Answer::Replaced { page, slot, frame } => Some([8, *page, *slot, *frame]),
        Answer::GivenBack { held } => Some([9, *held, 0, 0]),
        _ => None,
    }
}

fn same_tried(one: &Result<Answer, Refusal>, other: &Result<Answer, Refusal>) -> bool {
    match (one, other) {
        (Ok(one), Ok(other)) => same_answer(one, other),
        (Err(one), Err(other)) => *one == *other,
        _ => false,
    }
}

fn same_sides(one: &Sides, other: &Sides) -> bool {
    let (replies, others) = (one.replies.as_slice(), other.replies.as_slice());
    one.given == other.given
        && one.before == other.before
        && one.after == other.after
        && replies.len() == others.len()
        && replies.iter().zip(others).all(|(a, b)| same_tried(a, b))
}

fn same_marks(one: &[NameRow], other: &[NameRow]) -> bool {
    one.len() == other.len()
        && one.iter().zip(other).all(|(a, b)| a.node == b.node
            && a.name.as_str() == b.name.as_str())
}

fn same_asked(one: &Said, other: &Said) -> bool {
    match (one, other) {
        (Said::Sum { sum: a }, Said::Sum { sum: b }) => *a == *b,
        (Said::Table { rows: a, sum: m }, Said::Table { rows: b, sum: n }) => {
            a.get().as_slice() == b.get().as_slice() && m.get() == n.get()
        }
        (Said::Activity { activity: a }, Said::Activity { activity: b }) => a.get() == b.get(),
        (Said::Page { state: a }, Said::Page { state: b }) => *a == *b,
        (Said::Help { help: a }, Said::Help { help: b }) => *a == *b,
        (Said::Marks { marks: a }, Said::Marks { marks: b }) => {
            same_marks(a.get().as_slice(), b.get().as_slice())
        }
        _ => false,
    }
}

fn same_said(one: &Said, other: &Said) -> bool {
    match (one, other) {
        (Said::Done { answer: a }, Said::Done { answer: b }) => same_answer(a, b),
        (Said::Refused { refusal: a }, Said::Refused { refusal: b }) => *a == *b,
        (Said::Stand { stand: a }, Said::Stand { stand: b }) => *a == *b,
        (Said::Marked { name: a, node: m }, Said::Marked { name: b, node: n }) => {
            a.as_str() == b.as_str() && *m == *n
        }
        (Said::Pruned { count: a }, Said::Pruned { count: b }) => *a == *b,
        (Said::Sides { sides: a }, Said::Sides { sides: b }) => same_sides(a.get(), b.get()),
        _ => same_asked(one, other),
    }
}

pub fn same_reply(one: &Reply, other: &Reply) -> bool {
    one.jumps == other.jumps && same_said(&one.said, &other.said)
}
