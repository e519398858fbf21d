//! Laws of the definitions: which lines of a text are kept, and that none of a reply is.

ghost use Rattle.std.specs.Prelude.{◌≡◌, ℕ, List};
ghost use Rattle.esx_events.specs.declared.call.Reply.{Reply};
ghost use Rattle.esx_text.specs.Answers.{unknown_text};
ghost use Rattle.esx_recording.specs.Laws.{DropsReply, KeepsQuestions};
ghost use Rattle.esx_recording.specs.Questions.{question_lines};

/// Of a text's lines those that begin with a question mark are kept, each of them whole, and no others.
pub fn questions_are_kept()
    ensures { (text : List ℕ) → KeepsQuestions text }
{}

/// The answer to a line that is no command is kept.
pub fn unknown_is_kept()
    ensures { (number : ℕ) → question_lines (unknown_text number) ≡ unknown_text number }
{}

/// Of a reply no line is kept, where the names that it tells are names. A `Name` is one.
pub fn reply_is_dropped()
    ensures { (reply : Reply) → DropsReply reply }
{}
