//! Laws of the versions of the rules.

ghost use Rattle.esx_laws.specs.Versions.{DoVersionsAgree, DoBooksAgree};

/// Where no two contents that version 1 looked at have different keys with the same upper bits, its events
/// are answered as by the present rules, and lead to the same scene with each hint's key cut. So do the
/// tables that show it.
pub fn versions_agree()
    ensures played { DoVersionsAgree }
    ensures shown { DoBooksAgree }
{}
