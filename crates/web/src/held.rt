//! A desk behind a pointer that the host keeps.

ghost use Rattle.std.specs.Prelude.{◌≡◌};
ghost use Rattle.web.specs.declared.desk.Desk.{Desk};
ghost use Rattle.web.specs.Held.{desk_coded, held_owns};

use crate::desk::Desk;
use crate::parts::Parts;
use std::alloc::Global;
use std::marker::Model;

/// A pointer, as C sees it, and the desk that it points to.
#[repr(C)]
pub struct Held {
    pub(crate) ptr: *mut u8,
    pub(crate) alloc: Global,
    pub ghost desk: { Desk } by { desk_coded },
}

impl Model for Held {
    ghost also_owns = { λ h. held_owns h.alloc h.ptr h.desk };
}

impl Held {
    /// Hands a desk to the host.
    pub fn new(desk: Box<Desk>) -> Held
        ensures { result.desk ≡ desk.value }
    {
        Held::of_parts(Parts::of(desk))
    }

    /// Takes the desk back.
    pub fn into_box(self) -> Box<Desk>
        ensures { result.value ≡ self.desk }
    {
        self.into_parts().into_box()
    }

    fn of_parts(parts: Parts<Desk, Global>) -> Held
        ensures { result.desk ≡ parts.value }
    {
        let Parts { ptr, alloc } = parts;
        Held {
            ptr: ptr as *mut u8,
            alloc,
        }
    }

    fn into_parts(self) -> Parts<Desk, Global>
        ensures { result.value ≡ self.desk }
    {
        let Held { ptr, alloc } = self;
        Parts {
            ptr: ptr as *mut Desk,
            alloc,
        }
    }
}
