//! The areas of an image, as a list.

ghost use Rattle.std.specs.Prelude.{◌≡◌, ◌≢◌, ◌+◌, ◌++◌, [], ◌∷◌, IfNone, IfSome, OnOk, length};

use std::alloc::{AllocError, Global};
use std::marker::Model;
use zj_area::Area;
use zj_dev::Disk;

/// The areas of an image, in the order of their cores, with places for as many more as are spare.
#[derive(Debug, Drop)]
pub struct Areas<D: Disk> {
    list: Vec<Area<D>>,
}

impl<D: Disk> Model for Areas<D> {
    ghost use Rattle.std.specs.Prelude.{◌-◌, vec_len};
    ghost use Rattle.std.specs.Vec.{vec_capacity};
    ghost use Rattle.zj_mount.specs.Areas.{AreaList};

    ghost Value = { AreaList D };

    ghost view = { λ a. record { areas = a.list.items; spare = vec_capacity a.list - vec_len a.list } };
}

impl<D: Disk> Areas<D> {
    ghost use Rattle.std.specs.Prelude.{List};
    ghost use Rattle.std.specs.Borrow.{sem};
    ghost use Rattle.std.specs.List.{refill};
    ghost use Rattle.zj_area.specs.Journal.{AreaView};
    ghost use Rattle.zj_mount.specs.Lending.{LendsAreas};

    /// No area yet. It takes no memory.
    pub(crate) fn new(alloc: Global) -> Areas<D>
        ensures { result.areas ≡ [] }
    {
        Areas {
            list: Vec::new(alloc),
        }
    }

    /// Makes a place for one more. After `AllocError` the areas are as before.
    pub(crate) fn reserve(&mut self) -> Result<(), AllocError>
        ensures areas { self.new.areas ≡ self.old.areas }
        ensures spare { OnOk result (self.new.spare ≢ 0) }
    {
        self.list.reserve(1)
    }

    /// The areas, in order.
    pub(crate) fn into_vec(self) -> Vec<Area<D>>
        ensures { result.items ≡ self.areas }
    {
        self.list
    }

    /// How many areas there are.
    pub fn len(&self) -> usize
        ensures { result ≡ length self.now.areas }
    {
        self.list.len()
    }

    /// How many more have a place: so many can be put in without memory being taken.
    pub fn spare(&self) -> usize
        ensures { result ≡ self.now.spare }
    {
        self.list.capacity() - self.list.len()
    }

    /// The areas, to be changed one by one.
    pub fn slice_mut(&mut self) -> &mut [Area<D>]
        ensures* writes_back { sem 𝓛 (LendsAreas D.row D.Disk self.entry result) }
        ensures value { result.now ≡ self.old.areas }
        ensures same_len { (areas : List (AreaView D)) → length areas ≡ length self.old.areas → refill (length self.old.areas) self.old.areas areas ≡ areas }
    {
        self.list.as_mut_slice()
    }

    /// Puts an area behind the last one. It takes no memory.
    pub fn push(&mut self, a: Area<D>)
        requires { self.old.spare ≢ 0 }
        ensures areas { self.new.areas ≡ self.old.areas ++ a ∷ [] }
        ensures spare { self.new.spare + 1 ≡ self.old.spare }
    {
        self.list.push_reserved(a);
    }

    /// Takes the last area out, and makes one more place spare. `None` exactly where there is none. It takes no memory.
    pub fn pop(&mut self) -> Option<Area<D>>
        ensures some { IfSome result (λ a. (self.old.areas ≡ self.new.areas ++ a ∷ []) × (self.new.spare ≡ self.old.spare + 1)) }
        ensures none { IfNone result ((self.old.areas ≡ []) × (self.new ≡ self.old)) }
    {
        self.list.pop()
    }
}
