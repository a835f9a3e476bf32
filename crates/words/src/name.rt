//! A name in memory of its own.
ghost use Rattle.std.specs.Prelude.{◌≡◌, ◌≤◌, true, take};
ghost use Rattle.words.specs.Names.{is_name};

use crate::naming::{NAME_BYTES, is_name};

/// A name of a post or of a signal: the first `length` bytes.
// The bytes have a length beside them: a name is `Copy` and takes no memory of the heap.
// No `PartialEq`: a derived one would compare the bytes behind the name too.
#[derive(Clone, Copy, Debug)]
pub struct Name {
    pub(crate) bytes: [u8; NAME_BYTES],
    pub(crate) length: usize,
    ghost short: { length ≤ 12 },
    ghost named: { is_name (take length bytes) ≡ true },
}

/// A text is no name.
#[derive(Clone, Copy, PartialEq, Eq, Debug)]
pub struct NoName;

impl TryFrom<&[u8]> for Name {
    ghost use Rattle.words.specs.Named.{NamedBy};

    type Error = NoName;

    ghost try_from_gives = { λ text r. NamedBy text.now r };

    fn try_from(text: &[u8]) -> Result<Name, NoName> {
        if !is_name(text) {
            return Err(NoName);
        }
        let length = text.len();
        let mut bytes = [0; NAME_BYTES];
        bytes[..length].copy_from_slice(text);
        Ok(Name { bytes, length })
    }
}

impl Name {
    ghost use Rattle.words.specs.Named.{name_bytes};

    /// Its bytes.
    pub fn as_bytes(&self) -> &[u8]
        ensures { result.now ≡ name_bytes self.now }
    {
        &self.bytes[..self.length]
    }
}
