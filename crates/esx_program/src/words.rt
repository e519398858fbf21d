//! The words that the program is given.

ghost use Rattle.std.specs.Prelude.{◌≡◌, ◌⊎◌, Some, None, false, map, option_map, string_bytes, IfOk, IfErr, OnOk};
ghost use Rattle.clap.specs.Words.{app_of, first_of, found_of, rows_of, subcommand_rows_of, takes};
ghost use Rattle.clap.specs.declared.builder.command.Command.TheViews.{out-Command as fields_of};
ghost use Rattle.esx_scenario.specs.Lines.{number_in};
ghost use Rattle.esx_program.specs.Words.{with_file, console_app, report_app, why_app, program_app, table_named, node_named, at_named, page_named, what_reported, what_explained, question_at, of_file, of_question, named_in_full, manner_of_flag, asked_by, asked_at, asked_in, HaveNoFault};

use clap::error::ErrorKind;
use clap::{Arg, ArgAction, ArgMatches, Command};
use esx_events::Name;
use esx_paths::At;
use esx_reading::number_of;
use esx_reports::{Question, Table, What};
use esx_text::Manner;
use std::alloc::{AllocError, Global};

/// What the words ask for, with the path of a file or the file.
#[derive(Debug, Drop)]
pub enum Asked<F> {
    /// A console, at the site of the scenario in a file if one is named, and in which manner it answers.
    Console(Option<F>, Manner),
    /// A site served as a console does, whose session is told at its end; of a scenario too.
    Record(Option<F>),
    /// The run of the scenario in a file.
    Run(F),
    /// A session in a file, gone through again.
    Replay(F),
    /// Whether the calls of a session in a file have the replies that stand with them.
    Check(F),
    /// The same, and the first call with another reply.
    Diff(F),
    /// A session in a file, printed in version 2 where its calls have these replies.
    Migrate(F),
    /// What became of the memory on a path of the session in a file, or why a guest lost pages.
    Report(F, Question),
    /// The words of the program.
    Help,
}

/// Why the words ask for nothing.
#[derive(Clone, Copy, Debug, PartialEq, Eq)]
pub enum WordsFault {
    Wrong,
    OutOfMemory,
}

/// A word of the program, and behind it one file at most.
fn word_with_file<'a>(alloc: Global, word: &'a str) -> Result<Command<'a>, AllocError>
    ensures app { IfOk result (λ c. app_of c ≡ with_file word.entry.now) }
    ensures local { IfOk result (λ c. (fields_of c).has_globals ≡ false) }
{
    let file = Arg::new(alloc, "file");
    Command::new(alloc, word).arg(file)
}

/// The word `console`, a file, and whether each command is echoed.
fn console_word<'a>(alloc: Global) -> Result<Command<'a>, AllocError>
    ensures app { IfOk result (λ c. app_of c ≡ console_app) }
    ensures local { IfOk result (λ c. (fields_of c).has_globals ≡ false) }
{
    let echo = Arg::new(alloc, "echo")
        .long("echo")
        .action(ArgAction::SetTrue);
    word_with_file(alloc, "console")?.arg(echo)
}

/// The word `report`, a file, and by their names a node and a table.
fn report_word<'a>(alloc: Global) -> Result<Command<'a>, AllocError>
    ensures app { IfOk result (λ c. app_of c ≡ report_app) }
    ensures local { IfOk result (λ c. (fields_of c).has_globals ≡ false) }
{
    let node = Arg::new(alloc, "at").long("at");
    let table = Arg::new(alloc, "csv").long("csv");
    word_with_file(alloc, "report")?.arg(node)?.arg(table)
}

/// The word `why`, a file, a guest and one of its pages, and by its name a node.
fn why_word<'a>(alloc: Global) -> Result<Command<'a>, AllocError>
    ensures app { IfOk result (λ c. app_of c ≡ why_app) }
    ensures local { IfOk result (λ c. (fields_of c).has_globals ≡ false) }
{
    let vm = Arg::new(alloc, "vm");
    let page = Arg::new(alloc, "page");
    let node = Arg::new(alloc, "at").long("at");
    word_with_file(alloc, "why")?.arg(vm)?.arg(page)?.arg(node)
}

/// What may stand on the program's command line: nothing, or `console` or `record` and at most one file, or `run`,
/// `replay`, `check`, `diff` or `migrate` and a file, or `report` or `why` and a question, or `help`.
fn program<'a>(alloc: Global) -> Result<Command<'a>, AllocError>
    ensures { IfOk result (λ c. app_of c ≡ program_app) }
{
    Command::new(alloc, "esxplan")
        .disable_help_subcommand(true)
        .subcommand(console_word(alloc)?)?
        .subcommand(word_with_file(alloc, "record")?)?
        .subcommand(word_with_file(alloc, "replay")?)?
        .subcommand(word_with_file(alloc, "check")?)?
        .subcommand(word_with_file(alloc, "diff")?)?
        .subcommand(word_with_file(alloc, "migrate")?)?
        .subcommand(report_word(alloc)?)?
        .subcommand(why_word(alloc)?)?
        .subcommand(Command::new(alloc, "help"))?
        .subcommand(word_with_file(alloc, "run")?)
}

/// The number that a text writes.
fn number_named(text: &str) -> Option<u32>
    ensures { result ≡ number_in text.now }
{
    let number = number_of(text)?;
    if number < 1 << 32 {
        Some(number as u32)
    } else {
        None
    }
}

/// The table with this name.
fn table_named(text: &str) -> Option<Table>
    ensures { result ≡ table_named text.now }
{
    match text {
        "losses" => Some(Table::Losses),
        "guests" => Some(Table::Guests),
        "site" => Some(Table::Site),
        _ => None,
    }
}

/// The node with this name.
fn node_with_name(alloc: Global, text: &str) -> Result<Option<At>, AllocError>
    ensures { IfOk result (λ found. number_in text.now ≡ None → found ≡ node_named text.now) }
{
    match Name::new(alloc, text)? {
        Some(name) => Ok(Some(At::Name { name })),
        None => Ok(None),
    }
}

/// The node with this number, or with this name.
fn node_named(alloc: Global, text: &str) -> Result<Option<At>, AllocError>
    ensures { IfOk result (λ found. found ≡ node_named text.now) }
{
    match number_named(text) {
        Some(node) => Ok(Some(At::Node { node })),
        None => node_with_name(alloc, text),
    }
}

/// The node that is named, or the one where the session ends.
fn at_named(alloc: Global, text: Option<&str>) -> Result<Option<At>, AllocError>
    ensures { IfOk result (λ found. found ≡ at_named (option_map (λ t. t.now) text.entry)) }
{
    match text {
        Some(text) => node_named(alloc, text),
        None => Ok(Some(At::End)),
    }
}

/// The table that is named, or all of them.
fn what_reported(csv: Option<&str>) -> Option<What>
    ensures { result ≡ what_reported (option_map (λ t. t.now) csv.entry) }
{
    match csv {
        Some("changes") => Some(What::Changes),
        Some("steps") => Some(What::Steps),
        Some(text) => {
            let table = table_named(text)?;
            Some(What::Table { table })
        }
        None => Some(What::Report),
    }
}

/// A page that may be named.
fn page_named(page: Option<&str>) -> Option<Option<u32>>
    ensures { result ≡ page_named (option_map (λ t. t.now) page.entry) }
{
    match page {
        Some(text) => Some(Some(number_named(text)?)),
        None => Some(None),
    }
}

/// The losses of a guest, or of one of its pages.
fn what_explained(vm: Option<&str>, page: Option<&str>) -> Option<What>
    ensures { result ≡ what_explained (option_map (λ t. t.now) vm.entry) (option_map (λ t. t.now) page.entry) }
{
    let vm = number_named(vm?)?;
    let page = page_named(page)?;
    Some(What::Why { vm, page })
}

/// A question of the session in a file.
fn asked_of_file<'a>(
    file: Option<&'a str>,
    at: Option<At>,
    what: Option<What>,
) -> Option<Asked<&'a str>>
    ensures { option_map named_in_full result ≡ of_question (option_map (λ f. f.now) file.entry) (question_at at what) }
{
    let at = at?;
    let what = what?;
    Some(Asked::Report(file?, Question { at, what }))
}

/// What is asked for by a word and the file behind it, without a question, where a console answers in that manner. All
/// words but `console`, `record` and `help` want a file.
fn asked_for<'a>(word: &str, file: Option<&'a str>, manner: Manner) -> Option<Asked<&'a str>>
    ensures { option_map named_in_full result ≡ of_file word.now (option_map (λ f. f.now) file.entry) manner }
{
    match word {
        "run" => Some(Asked::Run(file?)),
        "replay" => Some(Asked::Replay(file?)),
        "check" => Some(Asked::Check(file?)),
        "diff" => Some(Asked::Diff(file?)),
        "migrate" => Some(Asked::Migrate(file?)),
        "record" => Some(Asked::Record(file)),
        "help" => Some(Asked::Help),
        _ => Some(Asked::Console(file, manner)),
    }
}

/// What stands for an argument, if anything does.
fn value_of<'a>(given: &ArgMatches<'a>, id: &str) -> Option<&'a str>
    ensures { option_map (λ s. s.now) result ≡ first_of id.now (rows_of (found_of given.now)) }
{
    given.get_str(id)
}

/// Whether each command is echoed, by the flag for it.
fn manner_of_flag(flag: Option<&str>) -> Manner
    ensures { result ≡ manner_of_flag (option_map (λ f. f.now) flag.entry) }
{
    match flag {
        Some("true") => Manner::Echoed,
        _ => Manner::Plain,
    }
}

/// What is asked for by a word and what stands behind it.
fn asked_by<'a>(
    alloc: Global,
    word: &str,
    given: &ArgMatches<'a>,
) -> Result<Option<Asked<&'a str>>, AllocError>
    ensures { IfOk result (λ asked. option_map named_in_full asked ≡ asked_by word.now (rows_of (found_of given.now))) }
{
    let file = value_of(given, "file");
    let what = match word {
        "report" => what_reported(value_of(given, "csv")),
        "why" => what_explained(value_of(given, "vm"), value_of(given, "page")),
        _ => {
            let manner = manner_of_flag(value_of(given, "echo"));
            return Ok(asked_for(word, file, manner));
        }
    };
    let at = at_named(alloc, value_of(given, "at"))?;
    Ok(asked_of_file(file, at, what))
}

/// What is asked for by words that were told apart so. Without a word it is a console.
fn asked_of_matches<'a>(
    alloc: Global,
    matches: &ArgMatches<'a>,
) -> Result<Asked<&'a str>, WordsFault>
    ensures ok { IfOk result (λ asked. asked_at (subcommand_rows_of matches.now) ≡ Some (named_in_full asked)) }
    ensures refused { IfErr result (λ e. e ≡ WordsFault.Wrong → asked_at (subcommand_rows_of matches.now) ≡ None) }
{
    let Some((word, rest)) = matches.subcommand() else {
        return Ok(Asked::Console(None, Manner::Plain));
    };
    match asked_by(alloc, word, rest) {
        Ok(asked) => asked.ok_or(WordsFault::Wrong),
        Err(AllocError) => Err(WordsFault::OutOfMemory),
    }
}

/// What the words ask for, the first of which is the program's name. Any refusal but for memory is `Wrong`,
/// a request for help by a flag too.
pub fn asked_of_words<'a>(alloc: Global, words: &'a [String]) -> Result<Asked<&'a str>, WordsFault>
    ensures ok { IfOk result (λ asked. asked_in (map string_bytes words.now) ≡ Some (named_in_full asked)) }
    ensures refused { IfErr result (λ e. e ≡ WordsFault.Wrong
        → (takes program_app (map string_bytes words.now) ≡ false) ⊎ (asked_in (map string_bytes words.now) ≡ None)) }
    ensures taken { OnOk result (HaveNoFault (map string_bytes words.now)) }
{
    let Ok(command) = program(alloc) else {
        return Err(WordsFault::OutOfMemory);
    };
    match command.try_get_matches_from(words) {
        Ok(matches) => asked_of_matches(alloc, &matches),
        Err(error) => match error.kind() {
            ErrorKind::OutOfMemory => Err(WordsFault::OutOfMemory),
            _ => Err(WordsFault::Wrong),
        },
    }
}
