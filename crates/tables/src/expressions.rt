//! The code of expressions, each carried out by itself.

ghost use Rattle.std.specs.Prelude.{IfSome};
ghost use Rattle.treecode.specs.internal.Nodes.{nodes_of};
ghost use Rattle.treecode.specs.internal.Rising.{NumbersRise};

use crate::page::Page;
use crate::runs::put_bytes;
use asm8080::CodeBytes;
use cpu8080::Machine;
use exprgen8080::{Emission, Facts, Part, Site, Task};
use frames::FramePlan;
use isa8080::Registers;
use mem80::Memory;
use ports::Script;
use sources::read_source;
use std::alloc::Global;
use tool::emit_expression;
use treecode::{ExpressionNumber, Statement, TreeModule, lower};

// A BYTE and an ADDRESS that are computed of variables.
const TEXT: &[u8] =
    b"M: DO; DECLARE (A, B) BYTE, C ADDRESS; OUTPUT(0) = A + B - 1; C = C + A; END M;";

// The data segment as it begins: A is 200, B is 100 and C is 1234H. It lies at the beginning of memory, so that the offsets in the code
// are addresses.
const DATA: [u8; 4] = [200, 100, 0x34, 0x12];

// What is assigned by a statement of the main program, counted from 0.
fn assigned(tree: &TreeModule, index: u32) -> Option<ExpressionNumber> {
    match tree.statement(tree.item(tree.main.body, index)?) {
        Some(Statement::Assignment { targets: _, value }) => Some(value),
        _ => None,
    }
}

// The code of a task.
fn code_of(alloc: Global, tree: &TreeModule, task: Task) -> Option<CodeBytes>
    requires { NumbersRise (nodes_of tree.now) }
{
    let frame = FramePlan::empty(alloc);
    let site = Site {
        tree,
        frame: &frame,
        facts: Facts::none(),
    };
    let code = Emission::new(alloc, tree).ok()?;
    let code = emit_expression(code, &site, Part { task, pushed: 0 }).ok()?;
    let (writer, _) = code.into_code();
    let (finished, _) = writer.finish().ok()?;
    Some(finished.into_bytes())
}

// The registers after the code of a task, which stands at 0100H. It has 20 instructions at most, and after it stand NOPs.
fn task_done(alloc: Global, tree: &TreeModule, task: Task) -> Option<Registers>
    requires { NumbersRise (nodes_of tree.now) }
{
    let code = code_of(alloc, tree, task)?;
    let mut memory = Memory::new(alloc).ok()?;
    put_bytes(&mut memory, 0, &DATA);
    put_bytes(&mut memory, 0x100, code.bytes());
    let mut machine = Machine::new(memory, Script::new(alloc), 0x100);
    machine.run(20);
    Some(machine.registers())
}

// The tree code of the source.
fn tree_of(alloc: Global) -> Option<TreeModule>
    ensures { IfSome result (λ tree. NumbersRise (nodes_of tree)) }
{
    match read_source(alloc, TEXT) {
        Ok(source) => match lower(alloc, &source.typed, &source.storage) {
            Ok(tree) => Some(tree),
            Err(_) => None,
        },
        Err(_) => None,
    }
}

// The registers after the code of both expressions: the first one comes into A, the second into HL.
fn both_done(alloc: Global) -> Option<(Registers, Registers)> {
    let tree = tree_of(alloc)?;
    let byte = task_done(alloc, &tree, Task::Byte(assigned(&tree, 0)?))?;
    let word = task_done(alloc, &tree, Task::Word(assigned(&tree, 1)?))?;
    Some((byte, word))
}

/// Prints what the code of two expressions computes.
pub fn print_expressions(page: &mut Page) {
    match both_done(page.alloc()) {
        Some((byte, word)) => {
            page.byte("A + B - 1: ", byte.a);
            page.byte(", C + A: ", word.h);
            page.byte("", word.l);
            page.text("\n");
        }
        None => page.note(false),
    }
}
