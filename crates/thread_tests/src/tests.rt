mod desk;
mod rewinding;
mod work;

/// Drops a value. Where a large one goes, this call is much less to prove than its fields' own drops, one by one.
fn done<T: Drop>(_it: T) {}
