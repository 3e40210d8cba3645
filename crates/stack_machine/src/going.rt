//! Instructions one after another.

ghost use Rattle.std.specs.Prelude.{◌≡◌, IfErr, IfOk, OnErr, OnOk, map};
ghost use Rattle.declared.specs.internal.Access.{AreKindsOf};
ghost use Rattle.join.specs.Views.{modules_in};
ghost use Rattle.declared.specs.internal.Frames.{module_frames};
ghost use Rattle.stack_code.specs.internal.Machine.{steps};
ghost use Rattle.stack_code.specs.internal.Program.{AreTablesOf};
ghost use Rattle.stack_machine.specs.Ends.{FaultCounts, stop_of};
ghost use Rattle.stack_machine.specs.internal.Runs.{Reaches, ReachesFault, Stops};
ghost use Rattle.stack_machine.specs.internal.Views.{machine_view, program_in};

use crate::end::{RunFault, SourceEnd};
use crate::loaded::Loaded;
use crate::machine::{Remaining, StackMachine};
use ports::Ports;

impl<'a> StackMachine<'a> {
    /// Carries out instructions until the program stops.
    #[tactic(auto, using(crate::proofs::Leading::starts, crate::proofs::Leading::given_up, crate::proofs::Leading::port_sank, crate::proofs::Leading::out_of_memory))]
    pub fn go_on<P: Ports>(
        &mut self,
        loaded: Loaded<'a>,
        ports: &mut P,
    ) -> Result<SourceEnd, RunFault>
        requires kinds { AreKindsOf loaded.joined.now loaded.placement.now loaded.kinds.now }
        requires slots { loaded.slots.now ≡ map module_frames (modules_in loaded.joined.now) }
        requires tables { AreTablesOf (modules_in loaded.joined.now) loaded.code.now loaded.tables.now }
        ensures ended { IfOk result (λ end. Stops (λ count. steps loaded.entry.code.now count
            (machine_view (program_in loaded.entry (P.script ports.old)) (P.events ports.old) self.old))
            (stop_of end) (P.events ports.new) self.new.budget) }
        ensures count { OnOk result (P.failures ports.new ≡ P.failures ports.old) }
        ensures reached { OnErr result (Reaches (λ count. steps loaded.entry.code.now count
            (machine_view (program_in loaded.entry (P.script ports.old)) (P.events ports.old) self.old))
            (P.events ports.new)) }
        ensures called { IfErr result (λ fault. ReachesFault (λ count. steps loaded.entry.code.now count
            (machine_view (program_in loaded.entry (P.script ports.old)) (P.events ports.old) self.old))
            fault (P.events ports.new) self.new.budget) }
        ensures failed { IfErr result (λ fault.
            FaultCounts fault (P.failures ports.old) (P.failures ports.new)) }
        ensures script { P.script ports.new ≡ P.script ports.old }
    {
        while self.at < loaded.code.len() {
            let instruction = loaded.code[self.at];
            match self.carry_out(loaded, instruction) {
                Ok(Remaining::Nothing) => {}
                Ok(Remaining::Stop(end)) => return Ok(end),
                Ok(Remaining::Input(port)) => {
                    self.input(port, ports)?;
                }
                Ok(Remaining::Output(port)) => {
                    self.output(port, ports)?;
                }
                Err(_) => return Err(RunFault::Memory),
            }
        }
        Ok(SourceEnd::Ended)
    }
}
