//! Laws of the definitions: lines that are explained are those that the console answers by their number, and what is
//! counted and held of an input is of its lines.

ghost use Rattle.std.specs.Prelude.{ℕ, List};
ghost use Rattle.esx_explained.specs.Input.{ReadSoFar};
ghost use Rattle.esx_explained.specs.Laws.{IsAnsweredByNumber, IsAnsweredWithoutNumber, IsReadInParts, IsReadInPieces, IsCountedInLines};

/// A line that is explained is answered by its number.
pub fn explained_where_unknown()
    ensures { (line : List ℕ) → IsAnsweredByNumber line }
{}

/// What answers a line that is not explained does not hang on its number.
pub fn known_without_number()
    ensures { (line : List ℕ) → IsAnsweredWithoutNumber line }
{}

/// Bytes that are read in two parts are read as at once.
pub fn read_in_parts()
    ensures { (r : ReadSoFar) (one other : List ℕ) → IsReadInParts r one other }
{}

/// Of a text that is read the pieces that are ended are counted, and what is held is of the rest behind them.
pub fn read_in_pieces()
    ensures { (text : List ℕ) → IsReadInPieces text }
{}

/// At the end of a text its lines are counted.
pub fn counted_in_lines()
    ensures { (text : List ℕ) → IsCountedInLines text }
{}
