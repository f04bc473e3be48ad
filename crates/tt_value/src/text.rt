//! Texts, which are UTF-8. A text is tested once, where it is made.

ghost use Rattle.std.specs.Prelude.{◌≡◌, IfOk, IsUtf8, MatchOption};

use crate::duplicate::Duplicate;
use std::alloc::{AllocError, Global};
use std::marker::Model;
use std::str;

/// A text, that contracts see as its bytes, which are UTF-8. It keeps its allocator.
#[derive(Debug, Drop)]
pub struct Text {
    text: String,
}

impl Model for Text {
    ghost use Rattle.std.specs.Prelude.{List, ℕ, string_bytes};

    ghost Value = { List ℕ };

    ghost view = { λ t. string_bytes t.text };
}

impl Text {
    /// The text of these bytes; `None` exactly where they aren't UTF-8.
    pub fn of(alloc: Global, bytes: &[u8]) -> Result<Option<Text>, AllocError>
        ensures { IfOk result (λ o. MatchOption o (¬ IsUtf8 bytes.now) (λ t. (t ≡ bytes.now) × IsUtf8 bytes.now)) }
    {
        match str::from_utf8(bytes) {
            Ok(text) => Ok(Some(Text::from_str(alloc, text)?)),
            Err(_) => Ok(None),
        }
    }

    /// The text of these bytes, which are not copied; `None` exactly where they aren't UTF-8.
    pub fn from_vec(bytes: Vec<u8>) -> Option<Text>
        ensures { MatchOption result (¬ IsUtf8 bytes.items) (λ t. (t ≡ bytes.items) × IsUtf8 bytes.items) }
    {
        match String::from_utf8(bytes) {
            Ok(text) => Some(Text { text }),
            Err(_) => None,
        }
    }

    /// A text that is given as one.
    pub fn from_str(alloc: Global, text: &str) -> Result<Text, AllocError>
        ensures { IfOk result (λ t. t ≡ text.now) }
    {
        Ok(Text {
            text: String::from_str(alloc, text)?,
        })
    }

    pub fn as_str(&self) -> &str
        ensures { result.now ≡ self.now }
    {
        self.text.as_str()
    }

    /// Its bytes, which are UTF-8.
    pub fn as_bytes(&self) -> &[u8]
        ensures bytes { result.now ≡ self.now }
        ensures utf8 { IsUtf8 self.now }
    {
        self.text.as_str().as_bytes()
    }

    /// An equal text.
    pub fn copy(&self) -> Result<Text, AllocError>
        ensures { IfOk result (λ t. t ≡ self.now) }
    {
        let text = self.text.clone()?;
        Ok(Text { text })
    }
}

impl Duplicate for Text {
    fn duplicate(&self, _alloc: Global) -> Result<Text, AllocError> {
        self.copy()
    }
}
