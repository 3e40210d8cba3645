//! The lines that say where a placed object lies.

ghost use Rattle.std.specs.Prelude.{◌≡◌, ◌++◌, [], IfOk, OnOk, map};
ghost use Rattle.std.specs.List.{flat_map};
ghost use Rattle.locate.specs.Locating.{symbol_view};
ghost use Rattle.object_commands.specs.Placing.{places_text, range_line, start_line, symbol_line};

use locate::{Absolute, Symbol};
use mem80::Plan;
use object_modules::{Name, ObjectModule, Segment};
use std::alloc::Global;
use std::io;
use std::io::Write;

// Adds the line of a range.
fn put_range(lines: &mut Vec<u8>, word: &str, address: u16, size: u16) -> io::Result<()>
    ensures { OnOk result (lines.new.items ≡ lines.old.items ++ range_line word.now address size) }
{
    writeln!(lines, "{word} {address:04X} {size}")
}

// Adds the line of where a module starts.
fn put_start(lines: &mut Vec<u8>, address: u16) -> io::Result<()>
    ensures { OnOk result (lines.new.items ≡ lines.old.items ++ start_line address) }
{
    writeln!(lines, "START {address:04X}")
}

// Adds the line of a public name.
fn put_symbol(lines: &mut Vec<u8>, name: &Name, address: u16) -> io::Result<()>
    ensures { OnOk result (lines.new.items
        ≡ lines.old.items ++ symbol_line (record { name = name.now; address = address })) }
{
    writeln!(lines, "PUBLIC {name} {address:04X}")
}

// Adds the lines of public names.
fn put_symbols(lines: &mut Vec<u8>, symbols: &[Symbol]) -> io::Result<()>
    ensures { OnOk result (lines.new.items
        ≡ lines.old.items ++ flat_map symbol_line (map symbol_view symbols.now)) }
{
    for symbol in symbols {
        put_symbol(lines, &symbol.name, symbol.address)?;
    }
    Ok(())
}

// Puts the lines of an object that was placed by a plan into an empty vector.
fn put_lines(
    lines: &mut Vec<u8>,
    object: &ObjectModule,
    absolute: &Absolute,
    plan: &Plan,
) -> io::Result<()>
    requires { lines.old.items ≡ [] }
    ensures { OnOk result (lines.new.items ≡ places_text plan.now object.now absolute.now) }
{
    put_range(lines, "CODE", plan.code, object.length(Segment::Code))?;
    put_range(lines, "DATA", plan.data_base, object.length(Segment::Data))?;
    put_range(lines, "STACK", plan.stack, plan.stack_size)?;
    put_start(lines, absolute.start())?;
    put_symbols(lines, absolute.symbols())
}

/// The lines of an object that was placed by a plan. Only memory can fail them.
pub(crate) fn lines_of(
    alloc: Global,
    object: &ObjectModule,
    absolute: &Absolute,
    plan: &Plan,
) -> io::Result<Vec<u8>>
    ensures { IfOk result (λ lines. lines.items ≡ places_text plan.now object.now absolute.now) }
{
    let mut lines = Vec::new(alloc);
    put_lines(&mut lines, object, absolute, plan)?;
    Ok(lines)
}
