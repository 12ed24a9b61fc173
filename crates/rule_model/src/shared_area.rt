ghost use Rattle.std.specs.Arc.{arc_value};
ghost use Rattle.std.specs.Prelude.{◌≡◌, IfOk};

use crate::area::Area;
use std::alloc::{AllocError, Global};
use std::marker::Model;
use std::sync::Arc;

/// An area that several feeders share, since a feeder statement has a feeder for each of its targets. Contracts see
/// the area.
#[derive(Drop)]
pub struct SharedArea {
    area: Arc<Area>,
}

impl Model for SharedArea {
    ghost use Rattle.std.specs.Arc.{arc_value};
    ghost use Rattle.rule_model.specs.declared.area.Area.{Area as AnyArea};

    ghost Value = { AnyArea };

    ghost view = { λ shared. arc_value shared.area };
}

impl SharedArea {
    /// The area, with one owner.
    pub fn new(alloc: Global, area: Area) -> Result<SharedArea, AllocError>
        ensures { IfOk result (λ shared. shared ≡ area) }
    {
        let area = Arc::new(alloc, area)?;
        Ok(SharedArea { area })
    }

    /// The same area, with one more owner.
    pub fn share(&self) -> Result<SharedArea, AllocError>
        ensures { IfOk result (λ shared. shared ≡ self.now) }
    {
        let area = Arc::try_clone(&self.area)?;
        Ok(SharedArea { area })
    }

    pub fn get(&self) -> &Area
        ensures { result.now ≡ self.now }
    {
        &self.area
    }
}
