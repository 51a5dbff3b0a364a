//! The names of symbols.

ghost use Rattle.std.specs.Prelude.{◌≡◌, IfOk};

use std::alloc::{AllocError, Global};
use std::boxed::Box;
use std::marker::Model;

// How many bytes a name may have that is kept in place.
const IN_PLACE: usize = 14;

/// The name of a symbol. A short one is kept in place, without an allocation. Contracts see its bytes.
#[derive(Drop)]
pub struct Name {
    bytes: Bytes,
}

// The bytes of a name.
#[derive(Drop)]
enum Bytes {
    // So many of these.
    InPlace(u8, [u8; IN_PLACE]),
    // More than that.
    Elsewhere(Box<Vec<u8>>),
}

impl Model for Name {
    ghost use Rattle.std.specs.Prelude.{ℕ, List};
    ghost use Rattle.rv_expr.specs.Names.{bytes_of, AreWithin};

    ghost Value = { List ℕ };

    ghost view = { λ n. bytes_of n.bytes };

    ghost invariant = { λ n. AreWithin n.bytes };
}

impl Name {
    /// The name of these bytes.
    pub fn of(alloc: Global, bytes: &[u8]) -> Result<Self, AllocError>
        ensures { IfOk result (λ n. n ≡ bytes.now) }
    {
        if bytes.len() > IN_PLACE {
            let bytes = Box::new(alloc, Vec::from_slice(alloc, bytes)?)?;
            return Ok(Name {
                bytes: Bytes::Elsewhere(bytes),
            });
        }
        let mut place = [0; IN_PLACE];
        place[..bytes.len()].copy_from_slice(bytes);
        Ok(Name {
            bytes: Bytes::InPlace(bytes.len() as u8, place),
        })
    }

    /// Its bytes.
    pub fn bytes(&self) -> &[u8]
        ensures { result.now ≡ self.now }
    {
        match &self.bytes {
            Bytes::InPlace(count, place) => &place[..usize::from(*count)],
            Bytes::Elsewhere(bytes) => bytes.as_slice(),
        }
    }
}
