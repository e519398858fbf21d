//! Laws of trades with the table. A function here does nothing: its contract is the law.

ghost use Rattle.std.specs.Prelude.{ℕ, List};
ghost use Rattle.esx_types.specs.declared.table.FrameRow.{FrameRow};
ghost use Rattle.esx_lists.specs.Trades.{LeadsBack, row_traded};
ghost use Rattle.esx_frames.specs.Marks.{bytes_traded_at, mark_traded_at, slot_traded_at};

/// Each trade, made again with what came out, leaves the table and what was traded as they were.
#[tactic(auto, using(esx_lists::proofs::Trades::row_back, crate::proofs::Callers::bytes_back_at, crate::proofs::Callers::mark_back_at, crate::proofs::Callers::slot_back_at))]
pub fn there_and_back()
    ensures row { (mpn : ℕ) → LeadsBack (λ (rows : List FrameRow) (row : FrameRow). row_traded rows mpn row) }
    ensures bytes { (mpn offset : ℕ) → LeadsBack (bytes_traded_at mpn offset) }
    ensures mark { (mpn : ℕ) → LeadsBack (mark_traded_at mpn) }
    ensures slot { (mpn : ℕ) → LeadsBack (slot_traded_at mpn) }
{}
