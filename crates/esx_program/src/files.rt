//! What is in a file that was opened, or was not.

ghost use Rattle.std.specs.Prelude.{◌≡◌, ℕ, List, string_bytes, IfOk, IfErr};
ghost use Rattle.esx_types.specs.Ranges.{IsConfig};
ghost use Rattle.esx_scenario.specs.Scenarios.{IsScenario};
ghost use Rattle.esx_session.specs.Sessions.{Reads, ReadsScript};
ghost use Rattle.esx_text.specs.States.{source_state};
ghost use Rattle.esx_program.specs.Files.{Opened, IsLeft, IsNoScenario, IsNoSession, IsNoText, IsNoTextWithin, IsTextRead, IsTextReadWithin, HasLongText, HasScenario, HasScript, HasSession, HasText, LacksLongText, LacksScenario, LacksSession, LacksText};
ghost use Rattle.esx_program.specs.Given.{open_fault};

use esx_reading::{MAX_FILE, MAX_SESSION, TextFault, read_text_within};
use esx_scenario::{Scenario, parse_scenario};
use esx_session::{Script, Session, parse_script, parse_session};
use esx_types::Source;
use std::alloc::Global;
use std::io::{self, ErrorKind};

/// What is told of a file that could not be opened.
fn fault_of_kind(kind: ErrorKind) -> TextFault
    ensures { result ≡ open_fault kind }
{
    match kind {
        ErrorKind::OutOfMemory => TextFault::OutOfMemory,
        _ => TextFault::Read,
    }
}

/// The text that a file of at most so many bytes gives.
fn text_within<F: Source>(alloc: Global, file: &mut F, most: usize) -> Result<String, TextFault>
    ensures text { IfOk result (λ s. IsTextReadWithin most (source_state F.remaining F.calls F.failures F.empty_reads F.asked file.old) (source_state F.remaining F.calls F.failures F.empty_reads F.asked file.new) (string_bytes s)) }
    ensures fault { IfErr result (IsNoTextWithin most (source_state F.remaining F.calls F.failures F.empty_reads F.asked file.old) (source_state F.remaining F.calls F.failures F.empty_reads F.asked file.new)) }
{
    read_text_within(alloc, file, most)
}

/// The text that a file gives.
fn text_of_source<F: Source>(alloc: Global, file: &mut F) -> Result<String, TextFault>
    ensures text { IfOk result (λ s. IsTextRead (source_state F.remaining F.calls F.failures F.empty_reads F.asked file.old) (source_state F.remaining F.calls F.failures F.empty_reads F.asked file.new) (string_bytes s)) }
    ensures fault { IfErr result (IsNoText (source_state F.remaining F.calls F.failures F.empty_reads F.asked file.old) (source_state F.remaining F.calls F.failures F.empty_reads F.asked file.new)) }
{
    text_within(alloc, file, MAX_FILE)
}

/// The scenario that a file gives.
fn scenario_of_source<F: Source>(alloc: Global, file: &mut F) -> Result<Scenario, TextFault>
    ensures scenario { IfOk result (λ plan. (text : List ℕ)
        × IsTextRead (source_state F.remaining F.calls F.failures F.empty_reads F.asked file.old) (source_state F.remaining F.calls F.failures F.empty_reads F.asked file.new) text × IsScenario text plan) }
    ensures fault { IfErr result (IsNoScenario (source_state F.remaining F.calls F.failures F.empty_reads F.asked file.old) (source_state F.remaining F.calls F.failures F.empty_reads F.asked file.new)) }
{
    let text = text_of_source(alloc, file)?;
    parse_scenario(alloc, text.as_str())
}

/// The site and the calls of the session that a file gives.
fn script_of_source<F: Source>(alloc: Global, file: &mut F) -> Result<Script, TextFault>
    ensures config { IfOk result (λ script. IsConfig script.site) }
    ensures script { IfOk result (λ script. (text : List ℕ)
        × IsTextRead (source_state F.remaining F.calls F.failures F.empty_reads F.asked file.old) (source_state F.remaining F.calls F.failures F.empty_reads F.asked file.new) text
        × ReadsScript text script.site script.requests) }
    ensures fault { IfErr result (IsNoSession (source_state F.remaining F.calls F.failures F.empty_reads F.asked file.old) (source_state F.remaining F.calls F.failures F.empty_reads F.asked file.new)) }
{
    let text = text_of_source(alloc, file)?;
    parse_script(alloc, text.as_str())
}

/// The session that a file gives.
fn session_of_source<F: Source>(alloc: Global, file: &mut F) -> Result<Session, TextFault>
    ensures session { IfOk result (λ session. (text : List ℕ)
        × IsTextRead (source_state F.remaining F.calls F.failures F.empty_reads F.asked file.old) (source_state F.remaining F.calls F.failures F.empty_reads F.asked file.new) text
        × Reads text session.site session.entries) }
    ensures fault { IfErr result (IsNoSession (source_state F.remaining F.calls F.failures F.empty_reads F.asked file.old) (source_state F.remaining F.calls F.failures F.empty_reads F.asked file.new)) }
{
    let text = text_of_source(alloc, file)?;
    parse_session(alloc, text.as_str())
}

/// The text in a file.
pub fn text_of_file<F: Source>(
    alloc: Global,
    opened: &mut io::Result<F>,
) -> Result<String, TextFault>
    ensures { (read : Opened) × IsLeft (source_state F.remaining F.calls F.failures F.empty_reads F.asked) opened.old opened.new read
        × IfOk result (λ s. HasText read (string_bytes s)) × IfErr result (LacksText read) }
{
    match opened {
        Ok(file) => text_of_source(alloc, file),
        Err(error) => Err(fault_of_kind(error.kind())),
    }
}

/// The text in a file that may be as long as a session of which a report is made.
pub fn long_text_of_file<F: Source>(
    alloc: Global,
    opened: &mut io::Result<F>,
) -> Result<String, TextFault>
    ensures { (read : Opened) × IsLeft (source_state F.remaining F.calls F.failures F.empty_reads F.asked) opened.old opened.new read
        × IfOk result (λ s. HasLongText read (string_bytes s)) × IfErr result (LacksLongText read) }
{
    match opened {
        Ok(file) => text_within(alloc, file, MAX_SESSION),
        Err(error) => Err(fault_of_kind(error.kind())),
    }
}

/// The scenario in a file.
pub fn scenario_of_file<F: Source>(
    alloc: Global,
    opened: &mut io::Result<F>,
) -> Result<Scenario, TextFault>
    ensures { (read : Opened) × IsLeft (source_state F.remaining F.calls F.failures F.empty_reads F.asked) opened.old opened.new read
        × IfOk result (HasScenario read) × IfErr result (LacksScenario read) }
{
    match opened {
        Ok(file) => scenario_of_source(alloc, file),
        Err(error) => Err(fault_of_kind(error.kind())),
    }
}

/// The site and the calls of the session in a file.
pub fn script_of_file<F: Source>(
    alloc: Global,
    opened: &mut io::Result<F>,
) -> Result<Script, TextFault>
    ensures config { IfOk result (λ script. IsConfig script.site) }
    ensures script { (read : Opened) × IsLeft (source_state F.remaining F.calls F.failures F.empty_reads F.asked) opened.old opened.new read
        × IfOk result (λ script. HasScript read script.site script.requests) × IfErr result (LacksSession read) }
{
    match opened {
        Ok(file) => script_of_source(alloc, file),
        Err(error) => Err(fault_of_kind(error.kind())),
    }
}

/// The session in a file.
pub fn session_of_file<F: Source>(
    alloc: Global,
    opened: &mut io::Result<F>,
) -> Result<Session, TextFault>
    ensures { (read : Opened) × IsLeft (source_state F.remaining F.calls F.failures F.empty_reads F.asked) opened.old opened.new read
        × IfOk result (λ session. HasSession read session.site session.entries) × IfErr result (LacksSession read) }
{
    match opened {
        Ok(file) => session_of_source(alloc, file),
        Err(error) => Err(fault_of_kind(error.kind())),
    }
}
