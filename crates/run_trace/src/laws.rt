//! The law that all is told that an instruction stores.
ghost use Rattle.run_trace.specs.StoreLaws.{StepsTellStores};

/// The law that an instruction of a run changes no byte but those that are told of its step. Where the run ends with the step none
/// are told, and none has changed.
pub fn steps_tell_stores()
    ensures { StepsTellStores }
{}
