//! The words of the program, told to whoever asks for them.

ghost use Rattle.std.specs.Prelude.{◌≡◌, ◌+◌, [], OnOk};
ghost use Rattle.esx_writing.specs.Writing.{Writes, sink_faults};
ghost use Rattle.esx_program.specs.Help.{help_text};

use esx_types::{Sink, SinkFailed};
use esx_writing::put_all;

/// Each word in a line, and below it an example.
const HELP: &str = "\
console        reads commands, one a line, and answers each at once; so it does without a word too
                   esxplan console <examples/sharing.txt
console FILE   the same at the site of the scenario in FILE
                   esxplan console examples/small.toml <examples/paging.txt
    --echo     writes each command behind > before its answer
                   esxplan console examples/small.toml --echo <examples/paging.txt
record [FILE]  makes commands as a console does, and prints their session
                   esxplan record examples/small.toml <examples/paging.txt >paging.session
run FILE       lets the machines of a scenario play their traces, and prints their session
                   esxplan run examples/scenario.toml >run.session
check FILE     makes a session's calls again: same N, or differs K, the first with another reply
                   esxplan check run.session
diff FILE      the same, and prints that call with both replies: the one told, and the one made
                   esxplan diff run.session
replay FILE    makes them again and prints their replies, and then the table
                   esxplan replay run.session
migrate FILE   prints a session in version 2, or differs K for the first call with another reply
                   esxplan migrate examples/old.session >new.session
report FILE    tells which guest lost which page, and why [--at NODE] [--csv TABLE]
               TABLE is losses, changes, guests, site or steps
                   esxplan report examples/scarce.session
why FILE V [P] tells in sentences why guest V lost its pages, or its page P [--at NODE]
                   esxplan why examples/scarce.session 0
help           prints these lines
                   esxplan help
";

/// Writes the words of the program, and hands them on. No memory is taken.
pub fn tell_help<W: Sink>(writer: &mut W) -> Result<(), SinkFailed>
    ensures bytes { Writes (W.contents writer.old) (W.contents writer.new) help_text result }
    ensures failures { W.failures writer.new ≡ W.failures writer.old + sink_faults result }
    ensures flushes { W.flushes writer.new + sink_faults result ≡ W.flushes writer.old + 1 }
    ensures sent { OnOk result (W.waiting writer.new ≡ []) }
{
    put_all(writer, HELP.as_bytes())?;
    writer.flush()
}
