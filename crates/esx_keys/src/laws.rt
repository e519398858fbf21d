//! Laws of trades with the listings. A function here does nothing: its contract is the law.

ghost use Rattle.std.specs.Prelude.{◌≡◌, ◌≢◌, ℕ, List};
ghost use Rattle.esx_types.specs.declared.table.Listing.{Listing};
ghost use Rattle.esx_lists.specs.Trades.{LeadsBack, row_traded};

/// A listing that is traded and traded back leaves the frames and the listing as they were.
#[tactic(auto, using(esx_lists::proofs::Trades::row_back))]
pub fn there_and_back()
    ensures { (frame : ℕ) → LeadsBack (λ (rows : List Listing) (row : Listing). row_traded rows frame row) }
{}

/// Trades at two frames give the same frames and the same listings in either order.
#[tactic(auto, using(esx_lists::proofs::Trades::rows_apart, esx_lists::proofs::Trades::row_apart))]
pub fn frames_apart()
    ensures frames { (rows : List Listing) (one other : ℕ) (x y : Listing) → one ≢ other
        → (row_traded (row_traded rows one x).0 other y).0 ≡ (row_traded (row_traded rows other y).0 one x).0 }
    ensures listing { (rows : List Listing) (one other : ℕ) (x y : Listing) → one ≢ other
        → (row_traded (row_traded rows one x).0 other y).1 ≡ (row_traded rows other y).1 }
{}
