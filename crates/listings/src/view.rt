//! A module of a program that was built.

ghost use Rattle.typed_trees.specs.Views.{module_view};
ghost use Rattle.listings.specs.internal.Marks.{BeginIn, LieInCode};

use object_modules::ObjectModule;
use placing::ModulePlacement;
use tool::SourceMarks;
use typed_trees::Typed;

/// A module of a program: its text, its tables, where its segments and objects lie, and where its code comes from.
#[derive(Clone, Copy)]
pub(crate) struct ModuleView<'s, 'b, 'm> {
    pub(crate) text: &'s [u8],
    pub(crate) typed: &'b Typed,
    pub(crate) object: &'b ObjectModule,
    pub(crate) placed: &'b ModulePlacement,
    pub(crate) marks: &'m SourceMarks,
    /// Where the code of each of its procedures begins, by its number.
    pub(crate) procedures: &'b [u16],
    /// The addresses of its segments, 65536 at most.
    pub(crate) code_base: u32,
    pub(crate) data_base: u32,
    pub(crate) ghost marks_lie_in_code: { LieInCode (module_view typed.now) object.now marks.now },
    pub(crate) ghost procedures_begin: { BeginIn (module_view typed.now) object.now procedures.now },
}
