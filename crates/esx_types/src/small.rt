//! A few bytes, which stand in place.

ghost use Rattle.std.specs.Prelude.{◌≡◌, ◌<◌, ◌≤◌, ◌+◌, ◌++◌, take, drop, length, IfOk, OnErr};
ghost use Rattle.esx_types.specs.Small.{kept_bytes, IsKept};

use crate::rows::Bytes;
use std::alloc::{AllocError, Global};
use std::marker::Model;

/// The most bytes that stand in place.
pub const FEW: usize = 22;

/// Where the bytes are: up to `FEW` of them in place, and more of them on the heap.
#[derive(Debug, Drop)]
enum Kept {
    Few { len: u8, bytes: [u8; FEW] },
    Many { bytes: Box<Bytes> },
}

/// Bytes, seen as the list of them. Up to `FEW` of them take no memory.
#[derive(Debug, Drop)]
pub struct SmallBytes {
    kept: Kept,
}

impl Model for SmallBytes {
    ghost use Rattle.std.specs.Prelude.{List, ℕ};

    ghost Value = { List ℕ };

    ghost use Rattle.esx_types.specs.Small.{kept_bytes, IsKept};

    ghost view = { λ a. kept_bytes a.kept };

    ghost invariant = { λ a. IsKept a.kept };
}

impl SmallBytes {
    /// The first so many bytes of some.
    pub fn few(bytes: [u8; FEW], len: usize) -> SmallBytes
        requires { len ≤ FEW }
        ensures { result ≡ take len bytes }
    {
        SmallBytes {
            kept: Kept::Few {
                len: len as u8,
                bytes,
            },
        }
    }

    pub fn copy_of(alloc: Global, bytes: &[u8]) -> Result<SmallBytes, AllocError>
        ensures ok { IfOk result (λ b. b ≡ bytes.now) }
        ensures memory { OnErr result (FEW < length bytes.now) }
    {
        if bytes.len() <= FEW {
            Ok(few_of(bytes))
        } else {
            Ok(SmallBytes {
                kept: Kept::Many {
                    bytes: Box::new(alloc, Bytes::copy_of(alloc, bytes)?)?,
                },
            })
        }
    }

    /// The same bytes. Up to `FEW` of them are copied, and more of them stay where they are.
    pub fn from_bytes(alloc: Global, bytes: Bytes) -> Result<SmallBytes, AllocError>
        ensures ok { IfOk result (λ b. b ≡ bytes) }
        ensures memory { OnErr result (FEW < length bytes) }
    {
        if bytes.len() <= FEW {
            Ok(few_of(bytes.as_slice()))
        } else {
            Ok(SmallBytes {
                kept: Kept::Many {
                    bytes: Box::new(alloc, bytes)?,
                },
            })
        }
    }

    pub fn as_slice(&self) -> &[u8]
        ensures { result.now ≡ self.now }
    {
        match &self.kept {
            Kept::Few { len, bytes } => &bytes[..*len as usize],
            Kept::Many { bytes } => bytes.as_slice(),
        }
    }

    pub fn len(&self) -> usize
        ensures { result ≡ length self.now }
    {
        self.as_slice().len()
    }

    pub fn copy(&self) -> Result<SmallBytes, AllocError>
        ensures ok { IfOk result (λ b. b ≡ self.now) }
        ensures memory { OnErr result (FEW < length self.now) }
    {
        match &self.kept {
            Kept::Few { len, bytes } => Ok(SmallBytes {
                kept: Kept::Few {
                    len: *len,
                    bytes: *bytes,
                },
            }),
            Kept::Many { bytes } => {
                let alloc = *Box::allocator(bytes);
                Ok(SmallBytes {
                    kept: Kept::Many {
                        bytes: Box::new(alloc, bytes.copy()?)?,
                    },
                })
            }
        }
    }

    /// Trades all of them with those of a page from a place on.
    pub fn trade(&mut self, page: &mut Bytes, at: usize)
        requires { at + length self.old ≤ length page.old }
        ensures page { page.new ≡ take at page.old ++ self.old ++ drop (at + length self.old) page.old }
        ensures own { self.new ≡ take (length self.old) (drop at page.old) }
    {
        trade_kept(&mut self.kept, page, at)
    }
}

fn trade_kept(kept: &mut Kept, page: &mut Bytes, at: usize)
    requires kept { IsKept kept.old }
    requires room { at + length (kept_bytes kept.old) ≤ length page.old }
    ensures kept { IsKept kept.new }
    ensures page { page.new ≡ take at page.old ++ kept_bytes kept.old ++ drop (at + length (kept_bytes kept.old)) page.old }
    ensures own { kept_bytes kept.new ≡ take (length (kept_bytes kept.old)) (drop at page.old) }
{
    let few = match kept {
        Kept::Few { len, .. } => *len as usize,
        Kept::Many { bytes } => {
            page.trade(at, bytes);
            return;
        }
    };
    if let Kept::Few { bytes, .. } = kept {
        trade_few(bytes, few, page, at);
    }
}

/// Trades the first bytes of some.
fn trade_few(bytes: &mut [u8; FEW], len: usize, page: &mut Bytes, at: usize)
    requires len { len ≤ FEW }
    requires room { at + length (take len bytes.old) ≤ length page.old }
    ensures page { page.new ≡ take at page.old ++ take len bytes.old ++ drop (at + length (take len bytes.old)) page.old }
    ensures bytes { take len bytes.new ≡ take (length (take len bytes.old)) (drop at page.old) }
{
    page.trade_slice(at, &mut bytes[..len]);
}

/// Bytes in place.
fn few_of(bytes: &[u8]) -> SmallBytes
    requires { length bytes.now ≤ FEW }
    ensures { result ≡ bytes.now }
{
    let mut few = [0; FEW];
    few[..bytes.len()].copy_from_slice(bytes);
    SmallBytes::few(few, bytes.len())
}

const _: () = prove!(size_of::<SmallBytes>() == 24);
