//! The list: the rows up to the highest that was used, and how many there are in all.

ghost use Rattle.std.specs.Prelude.{◌≡◌, ◌<◌, ◌≤◌, ◌+◌, ◌-◌, ◌++◌, IfOk, length, option_copied, replicate, slice_get, slice_index_or, vec_capacity};
ghost use Rattle.std.specs.Borrow.{sem};
ghost use Rattle.esx_grown.specs.Grown.{grown};

use crate::blank::Blank;
use std::alloc::{AllocError, Global};
use std::marker::Model;

/// A row that comes into use brings so many less one behind it, as far as there are any.
const AT_ONCE: usize = 64;

/// Rows, seen as the list of them. Behind those that came into use all are blank, and no memory of theirs was touched.
///
/// The room for all rows is taken by `new`, and no other call takes memory. A row that comes into use brings those below
/// it, and up to 63 behind it.
#[derive(Drop)]
pub struct Grown<T: Blank> {
    used: Vec<T>,
    len: usize,
    unused: T,
}

impl<T: Blank> Model for Grown<T> {
    ghost use Rattle.std.specs.Prelude.{◌≡◌, ◌≤◌, ◌-◌, ◌++◌, List, length, replicate, vec_capacity};
    ghost use Rattle.esx_grown.specs.Grown.{grown, IsGrown};

    ghost Value = { List T };

    ghost view = { λ a. grown T.blank a.used.items a.len };

    ghost invariant = { λ a. IsGrown T.blank a.unused (length a.used.items) a.len (vec_capacity a.used) };
}

impl<T: Blank> Grown<T> {
    ghost use Rattle.esx_grown.specs.Grown.{grown};
    ghost use Rattle.esx_grown.specs.Lends.{lends_row};

    /// That many rows, all of them blank.
    pub fn new(alloc: Global, len: usize) -> Result<Grown<T>, AllocError>
        ensures { IfOk result (λ rows. rows ≡ replicate len T.blank) }
    {
        Ok(Grown {
            used: Vec::with_capacity(alloc, len)?,
            len,
            unused: T::blank(),
        })
    }

    /// How many rows there are.
    pub fn len(&self) -> usize
        ensures { result ≡ length self.now }
    {
        self.len
    }

    /// The row at a place; none past the end.
    pub fn get(&self, at: usize) -> Option<&T>
        ensures { option_copied result ≡ slice_get self.now at }
    {
        if at < self.used.len() {
            Some(&self.used[at])
        } else if at < self.len {
            Some(&self.unused)
        } else {
            None
        }
    }

    /// The row at a place.
    pub fn row(&self, at: usize) -> &T
        requires { at < length self.now }
        ensures { result.now ≡ slice_index_or self.now at T.blank }
    {
        if at < self.used.len() {
            &self.used[at]
        } else {
            &self.unused
        }
    }

    /// The rows that came into use, from the first on. All later ones are blank.
    pub fn used(&self) -> &[T]
        ensures { self.now ≡ grown T.blank result.now (length self.now) }
    {
        self.used.as_slice()
    }

    /// The row at a place, for writing.
    pub fn row_mut(&mut self, at: usize) -> &mut T
        requires { at < length self.old }
        ensures* writes_back { sem 𝓛 (lends_row T.row T.Blank self.entry at result) }
        ensures value { result.now ≡ slice_index_or self.old at T.blank }
    {
        reach(&mut self.used, at, self.len);
        &mut self.used[at]
    }
}

/// Brings the rows up to a place into use, and some behind it, in room that is there.
#[inline]
fn reach<T: Blank>(used: &mut Vec<T>, at: usize, len: usize)
    requires within { at < len }
    requires few { length used.old.items ≤ len }
    requires room { len ≤ vec_capacity used.old }
    ensures seen { grown T.blank used.new.items len ≡ grown T.blank used.old.items len }
    ensures reached { at < length used.new.items }
    ensures few { length used.new.items ≤ len }
    ensures room { vec_capacity used.old ≤ vec_capacity used.new }
{
    if at >= used.len() {
        T::fill(used, at.saturating_add(AT_ONCE).min(len));
    }
}
