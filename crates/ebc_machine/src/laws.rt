//! Laws of the states of the machine: which numbers a machine and its memory can hold, and that a step keeps to these.
ghost use Rattle.ebc_machine.specs.Laws.{MachineIsConcrete, StepKeepsConcrete};

/// The law that a machine and its memory in numbers are a state that a machine of their width can be in (UEFI
/// specification, "Virtual Machine Registers").
pub fn machine_is_concrete()
    ensures { MachineIsConcrete }
{}

/// The law that a step leads from each such state to such a state, wherever the objects lie (UEFI specification, "EBC
/// Instruction Set").
pub fn step_keeps_concrete()
    ensures { StepKeepsConcrete }
{}
