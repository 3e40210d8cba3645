//! What the tables have for labels and procedures.

ghost use Rattle.std.specs.Prelude.{◌≡◌};
ghost use Rattle.stack_code.specs.internal.Program.{entry_in, label_in};

use stack_code::{Entry, ModuleTable};

/// The instruction after the mark of a label.
#[inline(always)]
pub fn label(tables: &[ModuleTable], number_of_module: usize, label: u32) -> usize
    ensures { result ≡ label_in tables.now number_of_module label }
{
    match tables.get(number_of_module) {
        Some(table) => table.labels.get(label as usize).copied().unwrap_or(0),
        None => 0,
    }
}

/// What the tables have for a procedure.
#[inline(always)]
pub fn entry(tables: &[ModuleTable], number_of_module: usize, procedure: usize) -> Option<Entry>
    ensures { result
        ≡ entry_in tables.now (record { number_of_module = number_of_module; number = procedure }) }
{
    match tables.get(number_of_module) {
        Some(table) => table.procedures.get(procedure).copied(),
        None => None,
    }
}
