//! The path to a node of the session of a text, surveyed.

ghost use Rattle.std.specs.Prelude.{◌≡◌, List, map, IfOk};
ghost use Rattle.esx_types.specs.declared.config.Config.{Config};
ghost use Rattle.esx_session.specs.declared.session.Entry.{Entry};
ghost use Rattle.esx_session.specs.Sessions.{Reads, request};
ghost use Rattle.esx_account.specs.Surveying.{IsPathOf, SurveysPath, IsAlong};
ghost use Rattle.esx_account.specs.Texts.{IsPathIn};

use crate::surveying::survey_script;
use esx_paths::Path;
use esx_reading::TextFault;
use esx_session::{Script, parse_script};
use esx_survey::Survey;
use std::alloc::{AllocError, Global};

/// The only fault that the text of a session has.
fn memory_fault(fault: TextFault) -> AllocError
    requires { fault ≡ TextFault.OutOfMemory }
{
    match fault {
        TextFault::OutOfMemory => AllocError,
        _ => unreachable!(),
    }
}

/// The calls of the session of a text, without their replies.
pub(crate) fn script_of(alloc: Global, text: &str) -> Result<Script, AllocError>
    requires { (site : Config) × (entries : List Entry) × Reads text.now site entries }
    ensures site { (site : Config) (entries : List Entry) → Reads text.now site entries → IfOk result (λ script. script.site ≡ site) }
    ensures calls { (site : Config) (entries : List Entry) → Reads text.now site entries → IfOk result (λ script. script.requests ≡ map request entries) }
{
    match parse_script(alloc, text) {
        Ok(script) => Ok(script),
        Err(fault) => Err(memory_fault(fault)),
    }
}

/// The second pass over the text of a session: its calls without their replies, and the survey of the path that the first
/// pass told. It is refused for want of memory alone.
///
/// condition: the path is one of the session of that text
pub fn survey_text(alloc: Global, text: &str, path: &Path) -> Result<(Script, Survey), AllocError>
    requires { (site : Config) × (entries : List Entry) × IsPathIn text.now site entries path.now }
    ensures site { (site : Config) (entries : List Entry) → IsPathIn text.now site entries path.now → IfOk result (λ p. p.0.site ≡ site) }
    ensures calls { (site : Config) (entries : List Entry) → IsPathIn text.now site entries path.now → IfOk result (λ p. IsPathOf site entries p.0.requests path.now) }
    ensures surveys { (site : Config) (entries : List Entry) → IsPathIn text.now site entries path.now → IfOk result (λ p. SurveysPath site entries path.now p.1) }
    ensures along { IfOk result (λ p. IsAlong path.now.waypoints p.1.walk) }
{
    let script = script_of(alloc, text)?;
    let survey = survey_script(alloc, &script, path)?;
    Ok((script, survey))
}
