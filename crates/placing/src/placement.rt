//! Where a program lies in memory.

ghost use Rattle.std.specs.Prelude.{◌≡◌, map};
ghost use Rattle.placing.specs.Views.{module_placement_view, placement_view};

use mem80::Range;

/// Where the objects and the constant lists of a module lie, by their numbers. For an object that has no storage and no
/// AT place the address says nothing.
pub struct ModulePlacement {
    pub objects: Vec<u16>,
    pub lists: Vec<u16>,
}

// Written out, so that it is freed here, and each crate that frees one calls this.
impl Drop for ModulePlacement {
    fn drop(self) {
        let ModulePlacement {
            objects: _,
            lists: _,
        } = self;
    }
}

/// Where a program lies: each of its modules, and the ranges of its code and of its stack.
pub struct Placement {
    modules: Vec<ModulePlacement>,
    code: Range,
    stack: Range,
}

impl Placement {
    /// The placement of a program whose modules lie there.
    pub fn new(modules: Vec<ModulePlacement>, code: Range, stack: Range) -> Placement
        ensures { placement_view result
            ≡ record { modules = map module_placement_view modules.items; code = code; stack = stack } }
    {
        Placement {
            modules,
            code,
            stack,
        }
    }

    /// Where its modules lie.
    pub fn modules(&self) -> &[ModulePlacement]
        ensures { map module_placement_view result.now ≡ (placement_view self.now).modules }
    {
        self.modules.as_slice()
    }

    /// The range of its code.
    pub fn code(&self) -> Range
        ensures { result ≡ (placement_view self.now).code }
    {
        self.code
    }

    /// The range of its stack.
    pub fn stack(&self) -> Range
        ensures { result ≡ (placement_view self.now).stack }
    {
        self.stack
    }
}

// Written out, so that it is freed here, and each crate that frees one calls this.
impl Drop for Placement {
    fn drop(self) {
        let Placement {
            modules: _,
            code: _,
            stack: _,
        } = self;
    }
}
