//! Values behind an `Arc`, and reuse of their memory.
ghost use Rattle.std.specs.Prelude.{◌≡◌, IfOk};
ghost use Rattle.std.specs.Arc.{arc_value};

use std::alloc::{AllocError, Global};
use std::mem;
use std::sync::Arc;

/// A value behind a new `Arc`.
pub(crate) fn new_shared<T: Drop>(alloc: Global, value: T) -> Result<Arc<T, Global>, AllocError>
    ensures { IfOk result (λ owner. arc_value owner ≡ value) }
{
    match Arc::new(alloc, value) {
        Ok(owner) => Ok(owner),
        Err(_) => Err(AllocError),
    }
}

/// A place for one shared value after another, which reuses the memory of the `Arc` and of the
/// value before. No clause is about its contents.
#[derive(Drop)]
pub(crate) struct SharedPlace<T> {
    owner: Option<Arc<T, Global>>,
    /// A value that is no longer needed.
    pub(crate) spare: Option<T>,
}

impl<T: Drop> SharedPlace<T> {
    /// An empty place. It allocates nothing.
    pub(crate) fn new() -> SharedPlace<T> {
        SharedPlace {
            owner: None,
            spare: None,
        }
    }

    /// The value behind an `Arc`. The value before becomes the spare one, unless it still has
    /// another owner.
    pub(crate) fn share(&mut self, alloc: Global, value: T) -> Result<Arc<T, Global>, AllocError>
        ensures { IfOk result (λ owner. arc_value owner ≡ value) }
    {
        let Some(mut owner) = self.owner.take() else {
            return new_shared(alloc, value);
        };
        match Arc::get_mut(&mut owner) {
            Some(place) => {
                self.spare = Some(mem::replace(place, value));
                Ok(owner)
            }
            None => new_shared(alloc, value),
        }
    }

    /// Keeps an owner whose value is only needed for its memory.
    pub(crate) fn keep(&mut self, owner: Arc<T, Global>) {
        self.owner = Some(owner);
    }
}
