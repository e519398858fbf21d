//! The session of a console.

ghost use Rattle.std.specs.Prelude.{◌≡◌, IfOk, string_bytes};
ghost use Rattle.esx_text.specs.Own.{told_text};

use esx_console::Console;
use std::alloc::{AllocError, Global};

/// The session so far: the site as it was opened, and each call with its reply. The line `session` is
/// answered by the same text.
pub fn print_session(alloc: Global, console: &Console) -> Result<String, AllocError>
    ensures { IfOk result (λ text. string_bytes text ≡ told_text console.now) }
{
    esx_session::print_session(alloc, &console.site(), console.log())
}
