//! A vector that contracts see as a list.
ghost use Rattle.std.specs.Prelude.{◌≡◌, List, [], IfOk};
ghost use Rattle.std.specs.List.{AllZip};
ghost use Rattle.std.specs.Cmp.Lexicographic.{pointwise};
ghost use Rattle.std.specs.Cmp.Rules.{comparing};
ghost use Rattle.std.proofs.Common.{rules};

use std::alloc::{AllocError, Global};
use std::marker::Model;

/// A vector, which contracts see as the list of its members.
#[derive(Debug, Drop)]
pub struct Listed<T> {
    inner: Vec<T>,
}

/// Bytes in order of the wire.
pub type Bytes = Listed<u8>;

/// Sync messages in order of sending.
pub type Messages = Listed<Bytes>;

impl<T> Model for Listed<T> {
    ghost Value = { List T };

    ghost view = { λ l. l.inner.items };
}

impl<T> Listed<T> {
    /// The empty list. It takes no memory.
    pub fn new(alloc: Global) -> Self
        ensures { result ≡ [] }
    {
        Listed {
            inner: Vec::new(alloc),
        }
    }

    /// The members of a vector. It takes no memory.
    pub fn from_vec(inner: Vec<T>) -> Self
        ensures { result ≡ inner.items }
    {
        Listed { inner }
    }

    /// The vector again. It takes no memory.
    pub fn into_vec(self) -> Vec<T>
        ensures { result.items ≡ self }
    {
        self.inner
    }

    /// The members, in order.
    pub fn as_slice(&self) -> &[T]
        ensures { result.now ≡ self.now }
    {
        &self.inner
    }
}

impl Listed<u8> {
    /// A copy of the bytes.
    pub fn copied(alloc: Global, bytes: &[u8]) -> Result<Self, AllocError>
        ensures { IfOk result (λ b. b ≡ bytes.now) }
    {
        Ok(Listed {
            inner: bytes.to_vec(alloc)?,
        })
    }
}

impl<T: PartialEq> PartialEq for Listed<T> {
    ghost eq = { pointwise T.eq };

    ghost laws = { Prim.search (comparing, rules) };

    fn eq(&self, other: &Listed<T>) -> bool {
        self.inner == other.inner
    }
}

impl<T: Eq> Eq for Listed<T> {
    ghost laws = { Prim.search (comparing, rules) };
}

impl<T: Clone> Clone for Listed<T> {
    ghost is_clone = { λ a b. AllZip T.is_clone a b };

    fn clone(&self) -> Result<Listed<T>, AllocError> {
        Ok(Listed {
            inner: self.inner.clone()?,
        })
    }
}
