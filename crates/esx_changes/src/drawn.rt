//! The page of a machine that a word draws.

ghost use Rattle.std.specs.Prelude.{◌≡◌};
ghost use Rattle.esx_changes.specs.Drawn.{drawn_page};

use esx_tables::VmTable;

/// From those that are in frames, in order of number: the word counts on from the first, round and round.
#[tactic(auto, using(crate::proofs::Draws::draws_page, crate::proofs::Draws::draws_nothing))]
pub fn drawn_page(row: &VmTable, word: u64) -> Option<u32>
    ensures { result ≡ drawn_page row.now word }
{
    let resident = row.standing().resident;
    if resident == 0 {
        return None;
    }
    let at = (word % u64::from(resident)) as u32;
    Some(row.nth_resident(at))
}
