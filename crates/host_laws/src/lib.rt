//! Laws of the steps of the modelled host: at either width and under every valid placement, a run that stands for a
//! configuration of the neutral machine sees what that sees, and stands for what that leaves. docs/HOST.md, "Laws of
//! its steps", says them in words.
//!
//! Promises:
//!
//! Each holds in a world that is as the rules on an image have it (`WorldFits`) and under a valid placement
//! (`IsPlaced`); the first three where the frames fit the stack (`StandsWithin`). docs/LAWS.md, "What the laws ask",
//! says where each premise is met.
//!
//! - `views_are_alike`: what the host sees of a configuration it sees of each run that stands for it.
//! - `plans_keep_standing`: after each plan that fits (`PlanFits`) the run stands for what the plan leaves of the
//!   configuration: the first function returns, a callback or a notification returns, a call is accepted, a callback or
//!   a notification is entered, a reply, an end.
//! - `host_step_keeps_standing`: after the host's step the run stands for what the neutral machine's leaves, unless
//!   that is stuck, where the script is as its reader gives it (`ScriptGiven`) and the frames that the step leaves fit
//!   the stack.
//! - `thunk_keeps_standing`: at BREAK 5 at the next thunk cell the host sees the cell's function (`seen`), and once the
//!   cell is served the machine stands for the configuration with one thunk more (`served`), where the cell is loaded
//!   as the rule on thunk cells has it (`ThunkLoaded`).
//! - `start_stands`: a run at its start stands for the neutral machine at its start, where static objects show
//!   (`StaticsShow`) and the script fills cells that are there and gives the entry function its arguments
//!   (`StartGiven`).
//! - `script_is_given`: a script that was read (`IsScript`) gives what these laws ask of it: `ScriptGiven` (`calls`);
//!   `StartGiven`, where the notes are as `IsNotes` says (`start`); and each object that it has or makes has instances
//!   of a shape of the notes (`objects`).
#![tactic(auto)]

ghost use Rattle.host_laws.specs.Laws.{HostStepKeepsStanding, PlansKeepStanding, StartStands, ThunkIsSeen, ThunkKeepsStanding, ViewsAlike};
ghost use Rattle.host_laws.specs.ScriptLaw.{CallsAreGiven, ObjectsAreGiven, StartIsGiven};

/// What the host sees of a configuration it sees of each run that stands for it.
pub fn views_are_alike()
    ensures { ViewsAlike }
{}

/// After each plan of the host that fits, the run stands for what the plan leaves of the configuration.
pub fn plans_keep_standing()
    ensures { PlansKeepStanding }
{}

/// After the host's step the run stands for what the neutral machine's leaves, unless that is stuck.
pub fn host_step_keeps_standing()
    ensures { HostStepKeepsStanding }
{}

/// BREAK 5 at the next thunk cell: the host sees its function, and the machine stands for the configuration with one thunk
/// more (UEFI specification, "BREAK").
pub fn thunk_keeps_standing()
    ensures seen { ThunkIsSeen }
    ensures served { ThunkKeepsStanding }
{}

/// A run at its start stands for the neutral machine at its start.
pub fn start_stands()
    ensures { StartStands }
{}

/// A script that was read gives what these laws ask of it.
pub fn script_is_given()
    ensures calls { CallsAreGiven }
    ensures start { StartIsGiven }
    ensures objects { ObjectsAreGiven }
{}
