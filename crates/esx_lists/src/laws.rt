//! Laws of trades. A function here does nothing: its contract is the law.

ghost use Rattle.std.specs.Prelude.{◌≡◌, ◌≢◌, ℕ, List};
ghost use Rattle.esx_lists.specs.Trades.{LeadsBack, row_traded, place_traded, part_traded, top_traded, place_turned, in_turn};

/// A row that is traded at a place and traded back leaves list and row as they were.
#[tactic(auto, using(crate::proofs::Trades::row_back))]
pub fn row_there_and_back<T>()
    ensures { (at : ℕ) → LeadsBack (λ (rows : List T) (row : T). row_traded rows at row) }
{}

/// At a place, a trade that leads back and leaves what stands past the end leads back.
#[tactic(auto, using(crate::proofs::Trades::place_back))]
pub fn place_there_and_back<T, U>()
    ensures { (one : T → U → T × U) (at : ℕ) (d : T) → LeadsBack one → ((b : U) → (one d b).0 ≡ d)
        → LeadsBack (λ (rows : List T) (b : U). place_traded one rows at d b) }
{}

/// Items that are traded with a part of a list and traded back leave both as they were.
#[tactic(auto, using(crate::proofs::Trades::part_back))]
pub fn part_there_and_back<T>()
    ensures { (at : ℕ) → LeadsBack (λ (old new : List T). part_traded old at new) }
{}

/// An item that goes onto the end of a list and comes off again, or the other way round, leaves the list as it was.
#[tactic(auto, using(crate::proofs::Tops::top_back))]
pub fn top_there_and_back<T>()
    ensures { (room : ℕ) (d : T) → LeadsBack (top_traded room d) }
{}

/// A turn that is its own inverse leaves the list as it was, made twice at a place.
#[tactic(auto, using(crate::proofs::Tops::turned_back))]
pub fn turn_there_and_back<T>()
    ensures { (turn : T → T) (at : ℕ) (d : T) → ((x : T) → turn (turn x) ≡ x)
        → (rows : List T) → place_turned turn (place_turned turn rows at d) at d ≡ rows }
{}

/// Trades at two places give the same list and the same rows in either order.
#[tactic(auto, using(crate::proofs::Trades::rows_apart, crate::proofs::Trades::row_apart))]
pub fn places_apart<T>()
    ensures rows { (rows : List T) (i j : ℕ) (x y : T) → i ≢ j
        → (row_traded (row_traded rows i x).0 j y).0 ≡ (row_traded (row_traded rows j y).0 i x).0 }
    ensures row { (rows : List T) (i j : ℕ) (x y : T) → i ≢ j
        → (row_traded (row_traded rows i x).0 j y).1 ≡ (row_traded rows j y).1 }
{}

/// Changes that are traded in turn lead back, where each does.
#[tactic(auto, using(crate::proofs::Turns::turn_back))]
pub fn changes_there_and_back<S, C>()
    ensures { (one : S → C → S × C) → LeadsBack one → LeadsBack (in_turn one) }
{}
