//! The call graph of a program.

ghost use Rattle.std.specs.Prelude.{◌≡◌, ◌+◌, ◌++◌, filter_map, map, slice_index, IfOk, OnOk};
ghost use Rattle.typed_trees.specs.Views.{module_view, procedure_view};
ghost use Rattle.layout.specs.Joined.{is_main};
ghost use Rattle.resolving.specs.internal.Views.{program_view, site_view};
ghost use Rattle.stack_need.specs.CallGraph.{bodies_from, body_of as body_of_procedure, call_graph as graph_of, first_numbers, main_body as body_of_main};
ghost use Rattle.stack_need.specs.internal.Graph.{callee_at, main_from, modules_at};
ghost use Rattle.call_graphs.specs.internal.Needs.{capped};
ghost use Rattle.call_graphs.specs.internal.Views.{body_view};

use crate::calls::calls_in;
use call_graphs::Body;
use resolving::{Found, Program, Site};
use std::alloc::{AllocError, Global};
use typed_trees::{Typed, TypedProcedure, charge_of};

// The number of the first body of each module.
fn first_numbers(alloc: Global, modules: &[Typed]) -> Result<Vec<usize>, AllocError>
    ensures { IfOk result (λ firsts. firsts.items ≡ first_numbers 1 (map module_view modules.now)) }
{
    let mut firsts = Vec::new(alloc);
    let mut next: usize = 1;
    for typed in modules {
        firsts.push(next)?;
        next = next.checked_add(typed.procedures.len()).ok_or(AllocError)?;
    }
    Ok(firsts)
}

// The number of a procedure's body.
fn number_of_body(firsts: &[usize], found: Found) -> Result<usize, AllocError>
    ensures { IfOk result (λ number. number ≡ slice_index firsts.now found.number_of_module + found.number) }
{
    let first = match firsts.get(found.number_of_module) {
        Some(first) => *first,
        None => 0,
    };
    first.checked_add(found.number).ok_or(AllocError)
}

// The bodies that calls in a module are of.
fn callees_of(
    alloc: Global,
    site: &Site<'_>,
    firsts: &[usize],
    calls: &[u32],
) -> Result<Vec<usize>, AllocError>
    ensures { IfOk result (λ callees. callees.items ≡ filter_map (callee_at
        (site_view site.now) firsts.now) calls.now) }
{
    let mut callees = Vec::new(alloc);
    for call in calls {
        if let Some(found) = site.callee(*call) {
            callees.push(number_of_body(firsts, found)?)?;
        }
    }
    Ok(callees)
}

// The body of a procedure of a module, or of the main module.
#[tactic(auto, using(crate::proofs::Graph::body_made))]
fn body_of(
    alloc: Global,
    site: &Site<'_>,
    firsts: &[usize],
    procedure: &TypedProcedure,
) -> Result<Body, AllocError>
    requires { firsts.now ≡ first_numbers 1 (modules_at (site_view site.now)) }
    ensures { IfOk result (λ body. body_view body
        ≡ capped (body_of_procedure (modules_at (site_view site.now)) site.now.number_of_module
        (procedure_view procedure.now))) }
{
    let calls = calls_in(alloc, &procedure.body)?;
    let callees = callees_of(alloc, site, firsts, calls.as_slice())?;
    Ok(Body {
        charge: charge_of(procedure),
        callees,
    })
}

// Adds the bodies of the procedures of a module.
#[tactic(auto, using(std::proofs::lemmas::List::append_assoc))]
fn add_bodies(
    alloc: Global,
    graph: &mut Vec<Body>,
    site: &Site<'_>,
    firsts: &[usize],
    procedures: &[TypedProcedure],
) -> Result<(), AllocError>
    requires { firsts.now ≡ first_numbers 1 (modules_at (site_view site.now)) }
    ensures { OnOk result (map body_view graph.new.items ≡ map body_view graph.old.items
        ++ map capped (map (body_of_procedure (modules_at (site_view site.now)) site.now.number_of_module)
        (map procedure_view procedures.now))) }
{
    for procedure in procedures {
        graph.push(body_of(alloc, site, firsts, procedure)?)?;
    }
    Ok(())
}

// Whether a module has statements at its outer level.
#[tactic(auto, using(join::proofs::MainModules::statements_stand))]
fn is_main(typed: &Typed) -> bool
    ensures { result ≡ is_main (module_view typed.now) }
{
    !typed.main.body.statements.as_slice().is_empty()
}

// The body of the main module.
#[tactic(auto, using(crate::proofs::Graph::main_is))]
fn main_body(alloc: Global, program: &Program<'_>, firsts: &[usize]) -> Result<Body, AllocError>
    requires { firsts.now ≡ first_numbers 1 (program_view program.now).modules }
    ensures { IfOk result (λ body. body_view body ≡ capped (body_of_main
        (program_view program.now).modules)) }
{
    for (number_of_module, typed) in program.modules.iter().enumerate() {
        if is_main(typed) {
            let site = Site {
                program: &*program,
                number_of_module,
            };
            let body = body_of(alloc, &site, firsts, &typed.main)?;
            return Ok(body);
        }
    }
    Ok(Body {
        charge: 0,
        callees: Vec::new(alloc),
    })
}

// Adds the bodies of the procedures of all modules.
#[tactic(auto, using(std::proofs::lemmas::List::append_assoc))]
fn add_all_bodies(
    alloc: Global,
    graph: &mut Vec<Body>,
    program: &Program<'_>,
    firsts: &[usize],
) -> Result<(), AllocError>
    requires { firsts.now ≡ first_numbers 1 (program_view program.now).modules }
    ensures { OnOk result (map body_view graph.new.items ≡ map body_view graph.old.items
        ++ map capped (bodies_from (program_view program.now).modules 0 (program_view program.now).modules)) }
{
    for (number_of_module, typed) in program.modules.iter().enumerate() {
        let site = Site {
            program: &*program,
            number_of_module,
        };
        add_bodies(alloc, graph, &site, firsts, typed.procedures.as_slice())?;
    }
    Ok(())
}

/// The call graph of a program.
#[tactic(auto, unfolding(crate::specs::CallGraph::call_graph))]
pub(crate) fn call_graph(alloc: Global, program: &Program<'_>) -> Result<Vec<Body>, AllocError>
    ensures { IfOk result (λ graph.
        map body_view graph.items ≡ map capped (graph_of (program_view program.now).modules)) }
{
    let firsts = first_numbers(alloc, program.modules)?;
    let main = main_body(alloc, program, firsts.as_slice())?;
    let mut graph = Vec::new(alloc);
    graph.push(main)?;
    add_all_bodies(alloc, &mut graph, program, firsts.as_slice())?;
    Ok(graph)
}
