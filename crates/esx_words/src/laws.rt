//! Laws of the grammar.

ghost use Rattle.std.specs.Prelude.{ℕ, List};
ghost use Rattle.esx_words.specs.Commands.{SpellsOneCall, SpellsInAscii, SpellsFromLetter};

/// A line spells one call at most.
pub fn one_call()
    ensures { (text : List ℕ) → SpellsOneCall text }
{}

/// The line of a call is ASCII.
pub fn ascii_command()
    ensures { (text : List ℕ) → SpellsInAscii text }
{}

/// The line of a call begins with a lower-case letter, so it is not empty and no note.
pub fn lower_command()
    ensures { (text : List ℕ) → SpellsFromLetter text }
{}
