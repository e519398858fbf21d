//! What is told of a virtual machine after an event.

ghost use Rattle.std.specs.Prelude.{◌≡◌};
ghost use Rattle.esx_figures.specs.Figures.{are_same, is_same_guest, is_same_site};

use esx_events::Sum;
use esx_formulas::level::depth;

/// A virtual machine: its pages in frames and how many it is to have there, the active share of its memory in units of
/// 1/65,536, its pages in shared frames, those that are lent, and those in slots.
#[derive(Clone, Copy, Debug, PartialEq, Eq)]
pub struct Figures {
    pub here: u32,
    pub target: u32,
    pub active: u32,
    pub shared: u32,
    pub lent: u32,
    pub out: u32,
}

fn are_same(one: &Figures, other: &Figures) -> bool
    ensures { result ≡ are_same one.now other.now }
{
    one.here == other.here
        && one.target == other.target
        && one.active == other.active
        && one.shared == other.shared
        && one.lent == other.lent
        && one.out == other.out
}

/// Is a machine told the same twice, or told as not there twice?
pub(crate) fn is_same_guest(one: &Option<Figures>, other: &Option<Figures>) -> bool
    ensures { result ≡ is_same_guest one.now other.now }
{
    match (one, other) {
        (None, None) => true,
        (Some(one), Some(other)) => are_same(one, other),
        _ => false,
    }
}

/// Is a site told the same twice?
pub(crate) fn is_same_site(one: &Sum, other: &Sum) -> bool
    ensures { result ≡ is_same_site one.now other.now }
{
    one.overhead == other.overhead
        && one.private == other.private
        && one.shared == other.shared
        && one.free == other.free
        && depth(one.level) == depth(other.level)
}
