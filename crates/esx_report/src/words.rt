//! Words of the sentences on losses.

ghost use Rattle.std.specs.Prelude.{◌≡◌, take};
ghost use Rattle.esx_report.specs.Why.{mechanism_text, came_text, wanted_text, tax_text, is_drop};

use esx_story::How;

pub fn mechanism_name(how: How) -> &'static str
    ensures { result.now ≡ mechanism_text how }
{
    match how {
        How::Balloon => "its balloon lent it; its bytes are given up",
        How::Swap => "paged out by the host",
        How::Replaced => "it made room for another page of its own guest",
        How::Dropped => "given back by the stopping guest",
        _ => "",
    }
}

pub fn came_name(came: Option<How>) -> &'static str
    ensures { result.now ≡ came_text came }
{
    match came {
        Some(How::SwapIn) => "read from its slot",
        Some(How::Pop) => "the guest touched it, the balloon popped, and it is zeros",
        Some(How::First) => "the guest touched it anew, and it is zeros",
        _ => "",
    }
}

pub fn wanted_name(need: u32) -> &'static str
    ensures { result.now ≡ wanted_text need }
{
    if need == 1 {
        " frame was wanted and "
    } else {
        " frames were wanted and "
    }
}

pub fn tax_name(own: bool) -> &'static str
    ensures { result.now ≡ tax_text own }
{
    if own {
        "% active, own tax "
    } else {
        "% active, tax "
    }
}

pub fn is_drop(how: How) -> bool
    ensures { result ≡ is_drop how }
{
    matches!(how, How::Dropped)
}

/// The first bytes of a command.
#[tactic(auto, using(std::proofs::lemmas::List::take_min))]
pub fn front(command: &[u8]) -> &[u8]
    ensures { result.now ≡ take 40 command.now }
{
    let count = 40usize.min(command.len());
    &command[..count]
}
