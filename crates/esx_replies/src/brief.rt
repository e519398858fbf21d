//! Replies that are known to take one line.

ghost use Rattle.std.specs.Prelude.{◌≡◌, ◌++◌, ℕ, List, true};
ghost use Rattle.esx_replies.specs.Signs.{behind};
ghost use Rattle.esx_replies.specs.Replies.{said_text};
ghost use Rattle.esx_replies.specs.Told.{is_brief};

use esx_events::Said;

/// Whether what is said takes one line whatever is told of it. Of what tells a name it is not said.
#[tactic(auto, using(crate::proofs::OneLineLemmas::brief_behind))]
pub fn is_brief(said: &Said) -> bool
    ensures value { result ≡ is_brief said.now }
    ensures line { result ≡ true → (sign : List ℕ) (jumps : ℕ) → behind sign (said_text said.now jumps) ≡ sign ++ said_text said.now jumps }
{
    match said {
        Said::Marked { .. } | Said::Sides { .. } | Said::Table { .. } | Said::Marks { .. } => false,
        _ => true,
    }
}
