//! Where the objects of a program lie, line by line.

ghost use Rattle.std.specs.Prelude.{◌≡◌, ◌++◌, [], IfOk, OnErr, OnOk, map};
ghost use Rattle.std.specs.Io.KnownBytes.{Appends};
ghost use Rattle.host.specs.Writing.{AppendsBeginning};
ghost use Rattle.typed_trees.specs.Views.{module_view, object_view};
ghost use Rattle.layout.specs.Placement.{kind_of};
ghost use Rattle.placing.specs.Views.{module_placement_view};
ghost use Rattle.commands.specs.Map.{map_line, map_of, map_text, module_text, object_line};

use host::{Failure, WriteFault, write_bytes};
use object_modules::Name;
use placing::ModulePlacement;
use std::alloc::Global;
use std::io;
use std::io::Write;
use tool::Built;
use typed_trees::{Home, Typed, TypedObject};

// Adds the line of an object that has a place.
fn put_line(
    lines: &mut Vec<u8>,
    module_name: &Name,
    object_name: &Name,
    address: u16,
    size: u32,
) -> io::Result<()>
    ensures { OnOk result (lines.new.items
        ≡ lines.old.items ++ map_line module_name.now object_name.now address size) }
{
    writeln!(
        lines,
        "MAP {module_name} {object_name} {address:04X} {size}"
    )
}

// Adds the line of an object where it has storage, or a place by AT.
#[tactic(auto, using(crate::proofs::MapLines::none_added))]
fn put_object(
    lines: &mut Vec<u8>,
    module_name: &Name,
    object: &TypedObject,
    address: u16,
) -> io::Result<()>
    ensures { OnOk result (lines.new.items
        ≡ lines.old.items ++ object_line module_name.now (object_view object.now, address)) }
{
    match object.home {
        Home::Data(_) | Home::Constant(_) | Home::At(_) => {
            put_line(lines, module_name, &object.name, address, object.size())
        }
        Home::Based(_) | Home::External | Home::Absent | Home::Frame(_) => Ok(()),
    }
}

// Adds the lines of the objects of a module.
#[tactic(auto, using(crate::proofs::MapLines::seen_added, crate::proofs::MapLines::firsts_ended, crate::proofs::MapLines::seconds_ended))]
fn put_module(lines: &mut Vec<u8>, typed: &Typed, placed: &ModulePlacement) -> io::Result<()>
    ensures { OnOk result (lines.new.items
        ≡ lines.old.items ++ module_text (module_view typed.now, module_placement_view placed.now)) }
{
    let mut objects = typed.objects.as_slice();
    let mut addresses = placed.objects.as_slice();
    while let [object, more @ ..] = objects {
        let [address, others @ ..] = addresses else {
            return Ok(());
        };
        put_object(lines, &typed.name, object, *address)?;
        objects = more;
        addresses = others;
    }
    Ok(())
}

// Adds the lines of modules.
#[tactic(auto, using(crate::proofs::MapLines::both_added, crate::proofs::MapLines::firsts_ended, crate::proofs::MapLines::looks_ended))]
fn put_modules(lines: &mut Vec<u8>, modules: &[Typed], placed: &[ModulePlacement]) -> io::Result<()>
    ensures { OnOk result (lines.new.items ≡ lines.old.items
        ++ map_text (map module_view modules.now) (map module_placement_view placed.now)) }
{
    let mut modules = modules;
    let mut places = placed;
    while let [typed, more @ ..] = modules {
        let [place, others @ ..] = places else {
            return Ok(());
        };
        put_module(lines, typed, place)?;
        modules = more;
        places = others;
    }
    Ok(())
}

// The lines of a program. Only memory can fail them.
#[tactic(auto, using(crate::proofs::MapLines::lines_are))]
fn lines_of(alloc: Global, built: &Built) -> io::Result<Vec<u8>>
    ensures { IfOk result (λ lines. lines.items ≡ map_of built.now) }
{
    let mut lines = Vec::new(alloc);
    put_modules(
        &mut lines,
        built.program().modules(),
        built.placement().modules(),
    )?;
    Ok(lines)
}

/// Prints where each object lies that has storage or a place by AT, in the order of the modules and of their texts: the
/// name of its module, its own, its address and how many bytes it takes. After a failure a beginning of that was printed.
#[tactic(auto, using(crate::proofs::Printed::nothing_begun))]
pub(crate) fn print_map<O: Write>(
    alloc: Global,
    built: &Built,
    out: &mut O,
) -> Result<(), Failure<WriteFault>>
    ensures ok { OnOk result (Appends (O.contents out.old) (O.contents out.new) (map_of built.now)) }
    ensures err { OnErr result
        (AppendsBeginning (O.contents out.old) (O.contents out.new) (map_of built.now)) }
{
    match lines_of(alloc, built) {
        Ok(lines) => write_bytes(out, lines.as_slice()),
        Err(_) => Err(Failure::Memory),
    }
}
