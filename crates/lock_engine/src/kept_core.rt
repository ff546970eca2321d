//! The core as it lies in the slot of the lock.

use index_spaces::NoMemory;
use run_core::Core;
use std::alloc::Global;
use std::marker::Model;

/// A core, seen as that. It takes one place in memory, since it is moved twice a turn.
#[derive(Drop)]
pub(crate) struct KeptCore<'g> {
    pub(crate) inner: Box<Core<'g>>,
}

impl<'g> Model for KeptCore<'g> {
    ghost use Rattle.run_core.specs.Core.{CoreValue};

    ghost Value = { CoreValue };

    ghost view = { λ a. a.inner.value };
}

impl<'g> KeptCore<'g> {
    ghost use Rattle.std.specs.Prelude.{◌≡◌, IfOk};

    /// Keeps a core.
    pub(crate) fn new(alloc: Global, core: Core<'g>) -> Result<KeptCore<'g>, NoMemory>
        ensures { IfOk result (λ kept. kept ≡ core.entry) }
    {
        match Box::new(alloc, core) {
            Ok(inner) => Ok(KeptCore { inner }),
            Err(_) => Err(NoMemory),
        }
    }

    /// The core.
    pub(crate) fn into_core(self) -> Core<'g>
        ensures { result ≡ self.entry }
    {
        Box::into_inner(self.inner)
    }
}
