ghost use Rattle.std.specs.Prelude.{◌≡◌, IfOk};

use cv_base::{Digest, NoMemory, PackageName, Text};
use std::alloc::Global;
use std::marker::Model;
use std::sync::Arc;

/// A value of which an equal one is made at a small and constant cost, as one more owner of the same memory.
pub trait Share {
    /// An equal value.
    fn share(&self) -> Result<Self, NoMemory>
        ensures { IfOk result (λ copy. copy ≡ self.now) };
}

impl Share for () {
    fn share(&self) -> Result<(), NoMemory> {
        Ok(())
    }
}

impl Share for u64 {
    fn share(&self) -> Result<u64, NoMemory> {
        Ok(*self)
    }
}

impl Share for Digest {
    fn share(&self) -> Result<Digest, NoMemory> {
        Ok(*self)
    }
}

impl Share for Text {
    fn share(&self) -> Result<Text, NoMemory> {
        Ok(self.clone()?)
    }
}

impl Share for PackageName {
    fn share(&self) -> Result<PackageName, NoMemory> {
        Ok(self.clone()?)
    }
}

/// A value with several owners. Contracts see the value. It is dropped with its last owner.
#[derive(Drop)]
pub struct Shared<T> {
    inner: Arc<T, Global>,
}

impl<T> Model for Shared<T> {
    ghost use Rattle.std.specs.Arc.{arc_value};

    ghost Value = { T };

    ghost view = { λ s. arc_value s.inner };
}

impl<T: Drop> Shared<T> {
    /// The first owner of a value.
    pub fn of(alloc: Global, value: T) -> Result<Shared<T>, NoMemory>
        ensures { IfOk result (λ shared. shared ≡ value) }
    {
        Ok(Shared {
            inner: Arc::new(alloc, value)?,
        })
    }
}

impl<T> Shared<T> {
    /// The value.
    pub fn value(&self) -> &T
        ensures { result.now ≡ self.now }
    {
        &self.inner
    }
}

/// One more owner. It takes no memory, and fails only if the count of owners is saturated.
impl<T> Share for Shared<T> {
    fn share(&self) -> Result<Shared<T>, NoMemory> {
        Ok(Shared {
            inner: Arc::try_clone(&self.inner)?,
        })
    }
}
