//! A list with a member for each lane.

ghost use Rattle.std.specs.Prelude.{◌≡◌, IfOk};

use smallvec::SmallVec;
use std::alloc::{AllocError, Global};
use std::marker::Model;

/// A list with a member for each lane, lane 0 first. Short lists take no memory of their own.
/// Contracts see it as the list of its members.
#[derive(Drop)]
pub struct Lanes<T> {
    all: SmallVec<T, 8>,
}

impl<T> Model for Lanes<T> {
    ghost use Rattle.std.specs.Prelude.{List};

    ghost Value = { List T };

    ghost view = { λ s. s.all.items };
}

impl<T: Copy + Default> Lanes<T> {
    /// The members of a slice, copied. Fails for want of memory alone.
    pub fn from_slice(alloc: Global, members: &[T]) -> Result<Lanes<T>, AllocError>
        ensures { IfOk result (λ lanes. lanes ≡ members.now) }
    {
        let all = SmallVec::from_slice(alloc, members)?;
        Ok(Lanes { all })
    }

    /// The members, borrowed.
    pub fn as_slice(&self) -> &[T]
        ensures { result.now ≡ self.now }
    {
        self.all.as_slice()
    }

    /// A copy of the list. Fails for want of memory alone.
    pub fn copy(&self, alloc: Global) -> Result<Lanes<T>, AllocError>
        ensures { IfOk result (λ lanes. lanes ≡ self.now) }
    {
        Lanes::from_slice(alloc, self.as_slice())
    }
}
