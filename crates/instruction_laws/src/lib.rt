//! The laws of an instruction: what the machine does at a width is what the neutral machine does at both, wherever that
//! isn't stuck and the stack has room. docs/SIMULATION.md says them in words.
//!
//! Promises:
//!
//! - `one_instruction`: one instruction, every form, at either width.
//! - `one_step`: one step of the machine, from the bytes at ip.
//! - `room_after`: the stack has room for an instruction where it has room for the frames that the neutral machine
//!   gives.
//! - `hosts_kept`: the frames that the host saved show after an instruction as before.
//! - `run_kept`: an instruction leaves the script place, the events and the ending alone.
//! - `world_meets`: the world of a run is as the laws ask, where the image keeps the rules on shapes, functions, static
//!   objects and thunk cells.
//! - `instruction_read`: the decoder reads an instruction that keeps the rule on decoding, at its place in the image.
//! - `instruction_there`: the machine is at the image's instruction, a relocated immediate moved, where that
//!   instruction keeps the rules on decoding and relocations.
//! - `same_executed`: the neutral machine does the same for the image's instruction and for the machine's.
//! - `image_step`: one step of the machine at an instruction of such an image does what the neutral machine does with
//!   it.
//! - `image_run_step`: the same in a run, whose whole state then stands for the configuration that the neutral machine
//!   gives.
//!
//! Nothing is said of an instruction at which the neutral machine is stuck. docs/LAWS.md, "What the laws ask", says
//! where each premise is met.
#![tactic(auto)]

ghost use Rattle.instruction_laws.specs.Laws.{HostsKept, OneInstruction, OneStep, RoomAfter, RunKept};
ghost use Rattle.instruction_laws.specs.Premises.{ImageRunStep, ImageStep, InstructionRead, InstructionThere, SameExecuted, WorldMeets};

/// The law of one instruction at one width: from a state that stands for a configuration the machine does what the neutral
/// machine does, unless that is stuck, and then stands for the configuration that it gives (UEFI specification, "EBC
/// Instruction Set"). Every form of instruction, and no types.
pub fn one_instruction()
    ensures { OneInstruction }
{}

/// The law of one step of the machine at one width, from the bytes at ip.
pub fn one_step()
    ensures { OneStep }
{}

/// The law that the stack has room for what an instruction puts there, where it has room for the frames that the neutral
/// machine gives.
pub fn room_after()
    ensures { RoomAfter }
{}

/// The law that the frames which the host saved show after an instruction as before it.
pub fn hosts_kept()
    ensures { HostsKept }
{}

/// The law that an instruction leaves the script place, the events and the ending alone.
pub fn run_kept()
    ensures { RunKept }
{}

/// The law that the world of a run is as the laws of an instruction ask it to be, where the image keeps the rules on shapes,
/// functions, static objects and thunk cells.
pub fn world_meets()
    ensures { WorldMeets }
{}

/// The law that the decoder reads an instruction that keeps the rule on decoding, at its place in the image.
pub fn instruction_read()
    ensures { InstructionRead }
{}

/// The law that the machine is at the image's instruction, a relocated immediate moved to where the image lies, where that
/// instruction keeps the rules on decoding and relocations.
pub fn instruction_there()
    ensures { InstructionThere }
{}

/// The law that the neutral machine does the same for the image's instruction and for the one that the machine is at.
pub fn same_executed()
    ensures { SameExecuted }
{}

/// The law of one step of the machine at either width, at an instruction of an image that keeps the rules: it does what the
/// neutral machine does with the image's instruction, unless that is stuck.
pub fn image_step()
    ensures { ImageStep }
{}

/// The same law in a run: the whole state of the run then stands for the configuration that the neutral machine gives, with
/// the frames of the host, the script place, the events and the ending as they were.
pub fn image_run_step()
    ensures { ImageRunStep }
{}
