//! Changes that several plans make.

ghost use Rattle.std.specs.Prelude.{◌≡◌};
ghost use Rattle.esx_types.specs.declared.table.Listing.TheVariants.{Unlisted};
ghost use Rattle.esx_tables.specs.declared.change.Change.TheVariants.{ListingAt, OfVm};
ghost use Rattle.esx_tables.specs.declared.change.VmPart.TheVariants.{PageAt};

use esx_tables::{Change, VmPart};
use esx_types::{Listing, MapRow, VmId};

/// A frame stands under nothing.
pub fn unlisted(frame: u32) -> Change
    ensures { result ≡ ListingAt frame Unlisted }
{
    let listing = Listing::Unlisted;
    Change::ListingAt { frame, listing }
}

/// A page of a machine is at another place.
pub fn page_at(vm: VmId, page: u32, row: MapRow) -> Change
    ensures { result ≡ OfVm vm (PageAt page row) }
{
    let part = VmPart::PageAt { page, row };
    Change::OfVm { vm, part }
}
