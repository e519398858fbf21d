//! Laws of trades with the table. A function here does nothing: its contract is the law.

ghost use Rattle.std.specs.Prelude.{ℕ, List};
ghost use Rattle.esx_types.specs.declared.table.SlotRow.{SlotRow};
ghost use Rattle.esx_lists.specs.Trades.{LeadsBack, row_traded};

/// A row that is traded and traded back leaves the table and the row as they were.
#[tactic(auto, using(esx_lists::proofs::Trades::row_back))]
pub fn there_and_back()
    ensures { (slot : ℕ) → LeadsBack (λ (rows : List SlotRow) (row : SlotRow). row_traded rows slot row) }
{}
