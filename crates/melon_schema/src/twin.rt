ghost use Rattle.std.specs.Prelude.{◌≡◌, ◌↔◌, IsTrue, IfOk};

use std::alloc::{AllocError, Global};

/// What can be copied whole and compared, as contracts see it.
pub trait Twin: Sized {
    /// A copy that equals it.
    fn copy(&self, alloc: Global) -> Result<Self, AllocError>
        ensures { IfOk result (λ twin. twin ≡ self.now) };

    /// Whether both are equal.
    fn same(&self, other: &Self) -> bool
        ensures { IsTrue result ↔ (self.now ≡ other.now) };
}

impl Twin for u64 {
    fn copy(&self, _alloc: Global) -> Result<u64, AllocError> {
        Ok(*self)
    }

    fn same(&self, other: &u64) -> bool {
        *self == *other
    }
}

impl Twin for usize {
    fn copy(&self, _alloc: Global) -> Result<usize, AllocError> {
        Ok(*self)
    }

    fn same(&self, other: &usize) -> bool {
        *self == *other
    }
}

impl Twin for u8 {
    fn copy(&self, _alloc: Global) -> Result<u8, AllocError> {
        Ok(*self)
    }

    fn same(&self, other: &u8) -> bool {
        *self == *other
    }
}

impl<T: Twin> Twin for Option<T> {
    fn copy(&self, alloc: Global) -> Result<Option<T>, AllocError> {
        match self {
            Some(item) => Ok(Some(item.copy(alloc)?)),
            None => Ok(None),
        }
    }

    fn same(&self, other: &Option<T>) -> bool {
        match (self, other) {
            (Some(ours), Some(theirs)) => ours.same(theirs),
            (None, None) => true,
            (Some(_), None) => false,
            (None, Some(_)) => false,
        }
    }
}
