//! Names of nodes.

ghost use Rattle.std.specs.Prelude.{◌≡◌, ◌↔◌, IfOk, IfSome, IsSome, OnErr};
ghost use Rattle.esx_events.specs.Names.{IsName, is_name_byte, is_lower, starts_lower, is_name};
ghost use Rattle.std.specs.List.{list_all};

use crate::boxed::Boxed;
use std::alloc::{AllocError, Global};
use std::marker::Model;

/// The most bytes of a name.
pub const MAX_NAME: usize = 32;

fn is_lower(byte: u8) -> bool
    ensures { result ≡ is_lower byte }
{
    b'a' <= byte && byte <= b'z'
}

fn is_name_byte(byte: u8) -> bool
    ensures { result ≡ is_name_byte byte }
{
    is_lower(byte) || b'0' <= byte && byte <= b'9' || byte == b'_' || byte == b'-'
}

fn starts_lower(bytes: &[u8]) -> bool
    ensures { result ≡ starts_lower bytes.now }
{
    match bytes.first() {
        None => false,
        Some(first) => is_lower(*first),
    }
}

fn has_name_bytes(bytes: &[u8]) -> bool
    ensures { result ≡ list_all is_name_byte bytes.now }
{
    bytes.iter().all(|byte| is_name_byte(*byte))
}

/// May these bytes be a name?
pub fn is_name(bytes: &[u8]) -> bool
    ensures { result ≡ is_name bytes.now }
{
    starts_lower(bytes) && bytes.len() <= MAX_NAME && has_name_bytes(bytes)
}

/// A name of 1 to `MAX_NAME` small letters, digits, `_` and `-`, that begins with a letter. It is seen as
/// the list of its bytes.
#[derive(Debug, Drop)]
pub struct Name {
    text: Boxed<String>,
}

impl Model for Name {
    ghost use Rattle.std.specs.Prelude.{List, ℕ, string_bytes};
    ghost use Rattle.esx_events.specs.Names.{IsName};

    ghost Value = { List ℕ };

    ghost view = { λ a. string_bytes a.text };

    ghost invariant = { λ a. IsName (string_bytes a.text) };
}

impl Name {
    /// The name that is this text, where it may be one. Memory is taken for a name alone.
    pub fn new(alloc: Global, text: &str) -> Result<Option<Name>, AllocError>
        ensures some { IfOk result (λ found. IsSome found ↔ IsName text.now) }
        ensures value { IfOk result (λ found. IfSome found (λ name. name ≡ text.now)) }
        ensures memory { OnErr result (IsName text.now) }
    {
        if is_name(text.as_bytes()) {
            let text = Boxed::new(alloc, String::from_str(alloc, text)?)?;
            Ok(Some(Name { text }))
        } else {
            Ok(None)
        }
    }

    pub fn as_str(&self) -> &str
        ensures value { result.now ≡ self.now }
        ensures range { IsName result.now }
    {
        self.text.get().as_str()
    }

    pub fn copy(&self) -> Result<Name, AllocError>
        ensures { IfOk result (λ name. name ≡ self.now) }
    {
        let text = self.text.get().clone()?;
        Ok(Name {
            text: Boxed::new(self.text.allocator(), text)?,
        })
    }
}
