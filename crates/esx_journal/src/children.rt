//! The children that a node leads to.

ghost use Rattle.std.specs.Prelude.{◌≡◌, ◌<◌, length};
ghost use Rattle.esx_journal.specs.Children.{next_of, unlinked};

use crate::rows::Rows;

/// Takes a node off its parent, of which it is the youngest child.
pub fn unlink(rows: &mut Rows, parent: u32, child: u32)
    requires parent { parent < length rows.old }
    requires child { child < length rows.old }
    ensures { rows.new ≡ unlinked rows.old parent (next_of rows.old child) }
{
    let next = rows.next(child as usize);
    rows.set_first(parent as usize, next);
}

/// Leaves no child to a node.
pub fn forget_children(rows: &mut Rows, parent: u32)
    requires { parent < length rows.old }
    ensures { rows.new ≡ unlinked rows.old parent 0 }
{
    rows.set_first(parent as usize, 0);
}
