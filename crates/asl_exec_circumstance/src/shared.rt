//! Names that many agents share.

ghost use Rattle.std.specs.Prelude.{◌≡◌, IfOk};

use asl_term::names::{Names, copy_names};
use asl_term::sequence::Starved;
use std::alloc::Global;
use std::marker::Model;
use std::sync::Arc;

/// Names that stand once, whoever has them. Contracts see them as `Names`.
pub struct SharedNames {
    names: Arc<Names, Global>,
}

/// By hand, so that a crate above that lets one go proves nothing of its parts.
impl Drop for SharedNames {
    fn drop(self) {
        let SharedNames { names: _ } = self;
    }
}

impl Model for SharedNames {
    ghost use Rattle.std.specs.Prelude.{ℕ, List};
    ghost use Rattle.std.specs.Arc.{arc_value};
    ghost use Rattle.std.specs.Coded.{coded_ℕ, coded_list};

    ghost Value = { List (List ℕ) };

    ghost coded = { coded_list (coded_list coded_ℕ) };

    ghost view = { λ s. arc_value s.names };
}

impl SharedNames {
    /// Equal names, to be shared.
    pub fn copy_of(alloc: Global, names: &Names) -> Result<SharedNames, Starved>
        ensures { IfOk result (λ s. s ≡ names.now) }
    {
        let names = copy_names(alloc, names)?;
        match Arc::new(alloc, names) {
            Ok(names) => Ok(SharedNames { names }),
            Err(_) => Err(Starved),
        }
    }

    /// The same names for one more.
    pub fn again(&self) -> Result<SharedNames, Starved>
        ensures { IfOk result (λ s. s ≡ self.now) }
    {
        match Arc::try_clone(&self.names) {
            Ok(names) => Ok(SharedNames { names }),
            Err(_) => Err(Starved),
        }
    }

    /// The names, to be read; those who share them see the same ones.
    pub fn get(&self) -> &Names
        ensures { result.now ≡ self.now }
    {
        &*self.names
    }
}
