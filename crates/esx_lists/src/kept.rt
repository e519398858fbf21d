//! Counts that are kept beside a list.

ghost use Rattle.std.specs.Prelude.{◌≡◌, ◌+◌, ◌-◌, ◌<◌, ◌≤◌, ◌^◌};
ghost use Rattle.esx_lists.specs.Counts.{one};

/// Counts anew after one item that was, or was not, among those that are counted is, or is not.
pub fn recount(count: &mut u32, was: bool, is: bool)
    requires there { one was ≤ count.old }
    requires fits { count.old - one was + one is < 2 ^ 32 }
    ensures { count.new ≡ count.old - one was + one is }
{
    *count = *count - u32::from(was) + u32::from(is);
}
