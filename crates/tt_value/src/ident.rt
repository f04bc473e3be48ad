//! Names of tables, columns, indexes and bookmarks, which are in lower case and none of the words that the script keeps
//! for itself. A name is tested once, where it is made.

ghost use Rattle.std.specs.Prelude.{◌≡◌, ◌≤◌, false, true, length, slice_index, IfOk, MatchOption};
ghost use Rattle.std.specs.List.{list_all};
ghost use Rattle.tt_value.specs.Ident.{is_name, is_reserved, is_letter, is_digit};

use crate::NAME_MAX;
use crate::duplicate::Duplicate;
use std::alloc::{AllocError, Global};
use std::marker::Model;

/// A name of 1 to 30 bytes in lower case, that contracts see as its bytes. It keeps its allocator.
#[derive(Debug, Drop)]
pub struct Ident {
    bytes: Vec<u8>,
}

impl Model for Ident {
    ghost use Rattle.std.specs.Prelude.{List, ℕ, ◌≡◌, true};
    ghost use Rattle.tt_value.specs.Ident.{is_name};

    ghost Value = { List ℕ };

    ghost view = { λ t. t.bytes.items };

    ghost invariant = { λ t. is_name t.bytes.items ≡ true };
}

impl Ident {
    /// The name of these bytes; `None` exactly where they are no name in lower case.
    pub fn of(alloc: Global, bytes: &[u8]) -> Result<Option<Ident>, AllocError>
        ensures { IfOk result (λ o. MatchOption o (is_name bytes.now ≡ false) (λ t. (t ≡ bytes.now) × (is_name bytes.now ≡ true))) }
    {
        if is_name(bytes) {
            let bytes = Vec::from_slice(alloc, bytes)?;
            Ok(Some(Ident { bytes }))
        } else {
            Ok(None)
        }
    }

    /// Its bytes.
    pub fn as_bytes(&self) -> &[u8]
        ensures bytes { result.now ≡ self.now }
        ensures name { is_name self.now ≡ true }
    {
        self.bytes.as_slice()
    }

    /// An equal name.
    pub fn copy(&self) -> Result<Ident, AllocError>
        ensures { IfOk result (λ t. t ≡ self.now) }
    {
        let bytes = self.bytes.clone()?;
        Ok(Ident { bytes })
    }
}

/// Whether the bytes are a name in lower case.
#[tactic(auto, unfolding(crate::specs::Ident::is_name))]
pub fn is_name(bytes: &[u8]) -> bool
    ensures { result ≡ is_name bytes.now }
{
    if bytes.is_empty() || bytes.len() > NAME_MAX {
        return false;
    }
    if begins_with_digit(bytes) {
        return false;
    }
    if !all_letters(bytes) {
        return false;
    }
    !is_reserved(bytes)
}

impl Duplicate for Ident {
    fn duplicate(&self, _alloc: Global) -> Result<Ident, AllocError> {
        self.copy()
    }
}

/// The words of the script that are no names.
const RESERVED: [&str; 34] = [
    "and", "as", "asc", "bigint", "by", "commit", "count", "create", "delete", "desc", "drop",
    "from", "index", "insert", "into", "is", "key", "not", "null", "number", "on", "or", "order",
    "primary", "rollback", "select", "set", "sum", "table", "unique", "update", "values",
    "varchar", "where",
];

// The words of the script that are no names.
#[tactic(auto, unfolding(crate::specs::Ident::is_reserved))]
fn is_reserved(bytes: &[u8]) -> bool
    ensures { result ≡ is_reserved bytes.now }
{
    RESERVED.iter().any(|word| bytes == word.as_bytes())
}

fn is_letter(b: u8) -> bool
    ensures { result ≡ is_letter b }
{
    b == b'_' || (b >= b'a' && b <= b'z') || (b >= b'0' && b <= b'9')
}

fn all_letters(bytes: &[u8]) -> bool
    ensures { result ≡ list_all is_letter bytes.now }
{
    bytes.iter().all(|b| is_letter(*b))
}

fn begins_with_digit(bytes: &[u8]) -> bool
    requires { 1 ≤ length bytes.now }
    ensures { result ≡ is_digit (slice_index bytes.now 0) }
{
    bytes[0] >= b'0' && bytes[0] <= b'9'
}
