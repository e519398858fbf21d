//! Laws of the definitions: what is written for an input is determined by it, by the caller and by the
//! session before.

ghost use Rattle.std.specs.Prelude.{ℕ, List};
ghost use Rattle.esx_model.specs.Console.{Session};
ghost use Rattle.esx_text.specs.declared.own.OwnWord.{OwnWord};
ghost use Rattle.esx_text.specs.Laws.{HasOneSplit, SpellsNoCall, IsNoCall, AsksNoCall, TellsPage, HasOneAnswer};

/// A text has its lines in one way.
pub fn one_split()
    ensures { (text : List ℕ) → HasOneSplit text }
{}

/// A line that is answered by nothing spells no call.
pub fn no_silent_call()
    ensures { (text : List ℕ) → SpellsNoCall text }
{}

/// The line of a word of the console alone spells no call.
pub fn no_own_call()
    ensures { (word : OwnWord) → IsNoCall word }
{}

/// A line that asks that a page go out spells no call.
pub fn no_pageout_call()
    ensures { (line : List ℕ) → AsksNoCall line }
{}

/// The answer to a line by which a page goes out tells that page.
pub fn pageout_tells_page()
    ensures { (session : Session) → TellsPage session }
{}

/// What is written for an input, and the session after it, are determined.
pub fn one_answer()
    ensures { (input : List ℕ) → HasOneAnswer input }
{}
