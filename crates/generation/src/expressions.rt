//! Code of one expression or location of the tree code, with what it does on the machine.
#![tactic(auto)]

ghost use Rattle.std.specs.Prelude.{IfOk};
ghost use Rattle.treecode.specs.internal.Nodes.{nodes_of};
ghost use Rattle.treecode.specs.internal.Rising.{NumbersRise};
ghost use Rattle.generation.specs.internal.Doing.{CodeDoes};

use exprgen8080::Emission;
use std::alloc::AllocError;
use steps8080::{Part, Site};

/// Takes code over and hands it back with the code of one expression or location of the tree code added, in a body with this
/// site, as the task of the part says. Wherever that stands the machine does what the expression or location means, if calls
/// of all procedures do with less of the budget. A refusal drops the code.
pub fn emit_expression(code: Emission, site: &Site<'_>, part: Part) -> Result<Emission, AllocError>
    requires { NumbersRise (nodes_of site.now.tree.now) }
    ensures { IfOk result (λ after. CodeDoes site.now part code after) }
{
    let mut code = code;
    code.emit(site, part)?;
    Ok(code)
}
