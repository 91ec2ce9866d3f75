//! The slots of a list, which its copies share.

ghost use Rattle.std.specs.Prelude.{◌≡◌, IfOk};

use casa_grid::Grid;
use std::alloc::{AllocError, Global};
use std::marker::Model;
use std::sync::Arc;

/// The slots of a profile, shared by the copies of a list and so never changed.
///
/// Contracts see them as the profile, as they see a grid.
pub struct SharedGrid {
    grid: Arc<Grid>,
}

impl Model for SharedGrid {
    ghost use Rattle.std.specs.Prelude.{List};
    ghost use Rattle.std.specs.Arc.{arc_value};
    ghost use Rattle.casa_grid.specs.declared.period.Period.{Period};

    ghost Value = { List Period };

    ghost view = { λ s. arc_value s.grid };
}

impl Drop for SharedGrid {
    fn drop(self) {
        let SharedGrid { grid: _ } = self;
    }
}

impl SharedGrid {
    /// These slots, to be shared, or `AllocError` where there is no memory for that.
    pub fn new(alloc: Global, grid: Grid) -> Result<SharedGrid, AllocError>
        ensures { IfOk result (λ shared. shared ≡ grid) }
    {
        Ok(SharedGrid {
            grid: Arc::new(alloc, grid)?,
        })
    }

    /// The same slots, not copied. `AllocError` where they are shared too often to count.
    pub fn share(&self) -> Result<SharedGrid, AllocError>
        ensures { IfOk result (λ shared. shared ≡ self.now) }
    {
        Ok(SharedGrid {
            grid: Arc::try_clone(&self.grid)?,
        })
    }

    /// The slots.
    pub fn get(&self) -> &Grid
        ensures { result.now ≡ self.now }
    {
        &self.grid
    }
}
