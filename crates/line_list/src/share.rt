//! What can be had twice at little cost.

ghost use Rattle.std.specs.Prelude.{◌≡◌, IfOk};

use std::alloc::{AllocError, Global};
use std::marker::Model;
use std::rc::Rc;

/// What can be had twice, at little cost: plain data, and what a counted reference holds.
pub trait Share: Drop {
    /// The same value once more.
    fn share(&self) -> Result<Self, AllocError>
        ensures { IfOk result (λ other. other ≡ self.now) };
}

/// A value behind a counted reference. Clauses see the value.
#[derive(Debug, Drop)]
pub struct Shared<T> {
    rc: Rc<T>,
}

impl<T> Model for Shared<T> {
    ghost Value = { T };

    ghost coded = { T.code };

    ghost view = { λ shared. shared.rc.value };
}

impl<T> Shared<T> {
    pub fn new(alloc: Global, value: T) -> Result<Shared<T>, AllocError>
    where
        T: Drop,
        ensures { IfOk result (λ shared. shared ≡ value) }
    {
        Ok(Shared {
            rc: Rc::new(alloc, value)?,
        })
    }

    pub fn get(&self) -> &T
        ensures { result.now ≡ self.now }
    {
        &self.rc
    }
}

impl<T: Drop> Share for Shared<T> {
    fn share(&self) -> Result<Self, AllocError> {
        Ok(Shared {
            rc: self.rc.clone()?,
        })
    }
}

impl Share for u32 {
    fn share(&self) -> Result<Self, AllocError> {
        Ok(*self)
    }
}
