ghost use Rattle.std.specs.Prelude.{◌≡◌, IfOk};

use crate::list::List;
use crate::memory::Memory;
use crate::text::Text;
use std::alloc::Global;

/// What can be copied whole, so that a list of it can.
pub trait TryCopy: Sized {
    fn try_copy(&self, alloc: Global) -> Result<Self, Memory>
        ensures { IfOk result (λ copy. copy ≡ self.now) };
}

impl TryCopy for Text {
    fn try_copy(&self, alloc: Global) -> Result<Text, Memory> {
        self.copy(alloc)
    }
}

impl<T: TryCopy + Drop> TryCopy for List<T> {
    fn try_copy(&self, alloc: Global) -> Result<List<T>, Memory> {
        self.copy(alloc)
    }
}

impl<T: TryCopy> TryCopy for Option<T> {
    fn try_copy(&self, alloc: Global) -> Result<Option<T>, Memory> {
        match self {
            None => Ok(None),
            Some(value) => Ok(Some(value.try_copy(alloc)?)),
        }
    }
}

impl<T: TryCopy + Drop> List<T> {
    pub fn copy(&self, alloc: Global) -> Result<List<T>, Memory>
        ensures { IfOk result (λ copy. copy ≡ self.now) }
    {
        let mut copy = Vec::new(alloc);
        for item in self.items() {
            copy.push(item.try_copy(alloc)?)?;
        }
        Ok(List::of(copy))
    }
}
