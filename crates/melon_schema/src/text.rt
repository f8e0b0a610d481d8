ghost use Rattle.std.specs.Prelude.{◌≡◌, [], IfOk, bytes_eq, string_bytes};

use crate::Twin;
use std::alloc::{AllocError, Global};
use std::marker::Model;

/// A text that contracts see as the list of its UTF-8 bytes.
#[derive(Debug, Drop)]
pub struct Text {
    inner: String,
}

impl Model for Text {
    ghost use Rattle.std.specs.Prelude.{List, ℕ, string_bytes};

    ghost Value = { List ℕ };

    ghost view = { λ t. string_bytes t.inner };
}

impl Text {
    /// A text with the bytes of this one.
    pub fn new(alloc: Global, text: &str) -> Result<Text, AllocError>
        ensures { IfOk result (λ t. t ≡ text.now) }
    {
        Ok(Text {
            inner: String::from_str(alloc, text)?,
        })
    }

    /// The text without bytes, which takes no memory.
    pub fn empty(alloc: Global) -> Text
        ensures { result ≡ [] }
    {
        Text {
            inner: String::new(alloc),
        }
    }

    /// The text of a string, which it takes over.
    pub fn from_string(inner: String) -> Text
        ensures { result ≡ string_bytes inner }
    {
        Text { inner }
    }

    /// The text as a string slice.
    pub fn as_str(&self) -> &str
        ensures { result.now ≡ self.now }
    {
        self.inner.as_str()
    }

    /// Whether it is this text.
    pub fn is(&self, other: &str) -> bool
        ensures { result ≡ bytes_eq self.now other.now }
    {
        self.inner.as_str() == other
    }
}

impl Twin for Text {
    fn copy(&self, alloc: Global) -> Result<Text, AllocError> {
        Text::new(alloc, self.as_str())
    }

    fn same(&self, other: &Text) -> bool {
        self.inner.as_str() == other.inner.as_str()
    }
}
