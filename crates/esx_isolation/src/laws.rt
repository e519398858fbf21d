//! Laws of isolation. A function here does nothing: its contract is the law.

ghost use Rattle.esx_isolation.specs.Beside.{IsGuestAlone, IsGuestWhole};
ghost use Rattle.esx_isolation.specs.Isolation.{IsEachMemoryOwn, IsMemoryMadeAlone, IsIsolated};
ghost use Rattle.esx_isolation.specs.Sharing.{DoEqualPagesShare, DoesLookKeep};

/// An event does to the memory of the machine that it names what it does of itself, and to no other's anything.
pub fn each_memory_is_its_own()
    ensures { IsEachMemoryOwn }
{}

/// Pages of equal bytes that come into one frame leave each machine's memory as it was, and so does each look, which compares them.
pub fn sharing_keeps_memories()
    ensures equal { DoEqualPagesShare }
    ensures look { DoesLookKeep }
{}

/// A machine's memory after a path is what its own events make of it.
pub fn memory_is_made_alone()
    ensures { IsMemoryMadeAlone }
{}

/// A read that is accepted after two paths answers equal bytes, if the same events name its machine.
pub fn reads_are_isolated()
    ensures { IsIsolated }
{}

/// The reads of a guest whose trace is tidy answer what they answer alone: as far as they come, and all of them
/// if its machine runs and its trace was gone through.
pub fn guest_reads_alone()
    ensures prefix { IsGuestAlone }
    ensures whole { IsGuestWhole }
{}
