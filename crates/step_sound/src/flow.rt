//! The step of an instruction of control or of the stack.
ghost use Rattle.std.specs.Prelude.{◌≡◌, IfOk};
ghost use Rattle.ebc_machine.specs.States.{KeepsObjects, LeavesAll, concrete_of};
ghost use Rattle.ebc_machine.specs.Step.{machine_step};
ghost use Rattle.ebc_width.specs.Width.{IsWidth};
ghost use Rattle.rules_flow.specs.Flow.{after_flow};
ghost use Rattle.step_sound.specs.Simulation.{StepSimulated};

use ebc_insn::Insn;
use ebc_machine::{Machine, StepEnd};
use note_types::{Notes, State};
use object_memory::ObjMem;
use rules_base::Here;

/// `Machine::step`, at an instruction of control or of the stack that its rule accepts in a state (`rules_flow::after_flow`): as
/// [`crate::sound_data`]. What a configuration is sound with then is what the
/// instruction asks: the state of the successor that was taken, the called function's entry state, what a function that returns leaves,
/// and what the host is asked for by CALLEX and BREAK 5.
pub fn sound_flow<const W: usize>(
    notes: &Notes,
    here: &Here,
    state: &State,
    insn: &Insn,
    machine: &mut Machine<W>,
    memory: &mut ObjMem<W>,
) -> StepEnd
    requires { IsWidth W }
    ensures step { (result, concrete_of machine.new memory.new) ≡ machine_step W (concrete_of machine.old memory.old) }
    ensures objects { KeepsObjects memory.old memory.new }
    ensures raised { LeavesAll machine.old memory.old machine.new memory.new result }
    ensures simulated { IfOk (after_flow notes.now here.now state.now insn.now) (λ x.
        StepSimulated W notes.now here.now state.now insn.now (concrete_of machine.old memory.old)
        (result, concrete_of machine.new memory.new) x) }
{
    machine.step(memory)
}
