//! The step of an instruction on data.
ghost use Rattle.std.specs.Prelude.{◌≡◌, IfOk};
ghost use Rattle.ebc_machine.specs.States.{KeepsObjects, LeavesAll, concrete_of};
ghost use Rattle.ebc_machine.specs.Step.{machine_step};
ghost use Rattle.ebc_width.specs.Width.{IsWidth};
ghost use Rattle.rules_data.specs.Data.{after_data};
ghost use Rattle.rules_flow.specs.Successors.{falls};
ghost use Rattle.step_sound.specs.Simulation.{StepSimulated};

use ebc_insn::Insn;
use ebc_machine::{Machine, StepEnd};
use note_types::{Notes, State};
use object_memory::ObjMem;
use rules_base::Here;

/// `Machine::step`, at an instruction on data that its rule accepts in a state: the machine does what the neutral machine does, which
/// isn't stuck and raises nothing but a division by zero, and stands for the configuration that this gives, which is sound with the
/// state that the rule gives (`rules_data::after_data`).
pub fn sound_data<const W: usize>(
    notes: &Notes,
    here: &Here,
    state: &State,
    insn: &Insn,
    machine: &mut Machine<W>,
    memory: &mut ObjMem<W>,
) -> StepEnd
    requires { IsWidth W }
    ensures step { (result, concrete_of machine.new memory.new) ≡ machine_step W (concrete_of machine.old memory.old) }
    ensures objects { KeepsObjects memory.old memory.new }
    ensures raised { LeavesAll machine.old memory.old machine.new memory.new result }
    ensures simulated { IfOk (after_data notes.now here.now state.now insn.now) (λ t.
        StepSimulated W notes.now here.now state.now insn.now (concrete_of machine.old memory.old)
        (result, concrete_of machine.new memory.new) (falls t)) }
{
    machine.step(memory)
}
