//! The memory of a stolen job's effect.
ghost use Rattle.std.specs.Prelude.{◌≡◌};

use cw_jobs::effect::Effect;
use std::alloc::{AllocError, Global};

/// An effect in its own memory, so that an empty cell takes little.
#[derive(Drop)]
pub struct Left {
    pub effect: Box<Effect>,
}

impl Left {
    /// Allocates memory for an effect. Its content means nothing until an effect is put there.
    ///
    /// # Errors
    ///
    /// An `AllocError` if there is not enough memory.
    pub fn room(alloc: Global) -> Result<Left, AllocError> {
        let nothing = Effect::Memory {
            back: Vec::new(alloc),
        };
        match Box::new(alloc, nothing) {
            Ok(effect) => Ok(Left { effect }),
            Err(_) => Err(AllocError),
        }
    }

    /// Returns the same memory with this effect in it.
    pub fn with(self, effect: Effect) -> Left
        ensures { result.effect.value ≡ effect }
    {
        let Left { effect: mut place } = self;
        let nothing = Box::replace(&mut place, effect);
        drop(nothing);
        Left { effect: place }
    }

    /// Returns the effect and frees its memory.
    pub fn into_effect(self) -> Effect
        ensures { result ≡ self.effect.value }
    {
        let Left { effect } = self;
        Box::into_inner(effect)
    }
}

/// Memory for the effect of the next stolen job, so that a thief never holds a job without memory for its effect.
#[derive(Drop)]
pub struct Spare {
    left: Option<Left>,
    alloc: Global,
}

impl Spare {
    pub fn new(alloc: Global) -> Result<Spare, AllocError> {
        let left = Left::room(alloc)?;
        Ok(Spare {
            left: Some(left),
            alloc,
        })
    }

    /// Returns the memory that was put back last, or else allocates it. Returns `None` if there is not enough memory.
    pub fn take(&mut self) -> Option<Left> {
        match self.left.take() {
            Some(left) => Some(left),
            None => match Left::room(self.alloc) {
                Ok(left) => Some(left),
                Err(_) => None,
            },
        }
    }

    /// Puts memory back that was not used.
    pub fn put(&mut self, left: Left) {
        self.left = Some(left);
    }
}
