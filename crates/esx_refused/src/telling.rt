//! How a refused machine is told, behind the refusal of the opening.

use crate::coming::RefusedOpening;
use std::fmt;

impl fmt::Display for RefusedOpening {
    ghost use Rattle.std.specs.Prelude.{Some};
    ghost use Rattle.esx_refused.specs.Telling.{refused_text};

    ghost output = { λ r. Some (refused_text r) };

    fn fmt<W: fmt::Write>(&self, f: &mut fmt::Formatter<W>) -> fmt::Result {
        let vm = self.vm.number();
        match self.lack {
            Some(lack) => write!(f, " vm {vm}: {} of {}", lack.asked, lack.had),
            None => write!(f, " vm {vm}"),
        }
    }
}
