//! What a parcel carries.
ghost use Rattle.std.specs.Prelude.{◌≡◌};
ghost use Rattle.wire_core.specs.Spellings.{SpellsItem};

use std::alloc::AllocError;
use std::marker::Model;

/// The bytes of one whole item that is written on a connection: a frame, or a message of the handshake.
/// That they are the spelling of one its type keeps. Contracts see them as a list. (ERTS User's Guide,
/// Distribution Protocol.)
#[derive(Drop)]
pub struct Spelling {
    bytes: Vec<u8>,
}

impl Model for Spelling {
    ghost use Rattle.std.specs.Prelude.{ℕ, List};
    ghost use Rattle.wire_core.specs.Spellings.{SpellsItem};

    ghost Value = { List ℕ };

    ghost view = { λ spelling. spelling.bytes.items };

    ghost invariant = { λ spelling. SpellsItem spelling.bytes.items };
}

impl Spelling {
    /// These bytes, which are an item's.
    pub fn new(bytes: Vec<u8>) -> Self
        requires { SpellsItem bytes.items }
        ensures { result ≡ bytes.items }
    {
        Spelling { bytes }
    }

    /// The bytes.
    pub fn as_slice(&self) -> &[u8]
        ensures bytes { result.now ≡ self.now }
        ensures item { SpellsItem self.now }
    {
        self.bytes.as_slice()
    }

    /// The bytes.
    pub fn into_bytes(self) -> Vec<u8>
        ensures bytes { result.items ≡ self }
        ensures item { SpellsItem self }
    {
        let Spelling { bytes } = self;
        bytes
    }
}

impl Clone for Spelling {
    ghost is_clone = { λ spelling copy. copy ≡ spelling };

    fn clone(&self) -> Result<Spelling, AllocError> {
        Ok(Spelling {
            bytes: self.bytes.clone()?,
        })
    }
}
