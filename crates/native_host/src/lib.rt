//! The modelled host of a run as code (docs/HOST.md): its start, where its things lie, how it reads numbers, its steps,
//! and how it serves thunk cells; and what the hosts of two images do at a bound call (docs/PAIRS.md). Contracts speak
//! in the words of `host_model` and `pair_model`. Only `start` takes memory. The crate stands on these two, on
//! `object_memory`, on `pe_image` and `reloc_loader` for the image that is loaded, on `callex_thunk`, which takes the
//! arguments of a native call, and with `entry_thunk` on it for what a memory is as a state in numbers.
//!
//! Promises:
//!
//! A `Host` keeps where its things lie and what it needs of the notes (`places`), the typed objects that are made
//! (`made`), how many calls of the script were accepted, how many notifications were entered and how many thunks were
//! served (`entries`, `notifications`, `thunks`), and the events (`trace`). It is the host of a run's world where
//! `IsHost` holds, and keeps what it needs of notes where `IsOf` does; `placement_of` is its placement, which is this
//! project's own where it is the host of a world.
//!
//! - `start`: the host of a run of an image, under notes and with a script, all of which were read, and its memory. It
//!   is the host of that run's world (`host`) and serves (`serving`); no call was accepted, no notification entered, no
//!   thunk served and no event told (`entries`, `notifications`, `thunks`, `trace`), and there is room for the most
//!   events that the script can give (`room`, `all_events`). The memory has what is there from the start, at the
//!   placement that is this project's own, and room for all that the script's calls make (`memory`, `IsMemoryOf`); its
//!   objects and bytes are those of the state in which the machine starts (`state`, `start_machine`): the image is
//!   loaded at its base, and the script's objects hold what they hold at first. It fails only where there is no memory.
//! - `Host::number_of`: the number of a value that a script writes, `written_number` under any notes of which the host
//!   is.
//! - `result_of`: a function's result as the host reads it from R7: by the function's type, of the low `W` bytes
//!   (`read`). In each state of a run that has what the host tells, and the number in R7, that is what `host_model`
//!   sees there (`run`). It needs notes of which the host is.
//! - `returned`: the same value, and the event Returned more (`read`, `run`, `event`); nothing else changes (`same`).
//!   It needs room for the event, and leaves that for all others (`room`).
//! - `resumed`: what `returned` promises, with the event Resumed, for a function that was entered as a notification.
//! - `due`: whether a notification is left that waits for no more instructions than these, `is_due` (no name).
//! - `notification`: what the host does where one is due. The step is that of the definitions' plan (`step`), and the
//!   run that the plan leaves is the one that the host shows then, once whoever runs the machine has done its part
//!   (`after`, `taken`). A function that is to be entered is there, with as many values as it has parameters
//!   (`entered`). Where the run ends nothing changes (`same`).
//! - `call`: the same where a call instruction asks for a native call, by R0, its place and the target. Either the call
//!   is accepted or the run ends, no other step comes (`settled`); its event is told in both cases. Where it is
//!   accepted its objects are placed and filled and it is under way above the top frame; the memory has what the host
//!   has placed then, and room for what it is still to place (`memory`, `IsMemoryOf`). Where the run ends the memory is
//!   as it was (`same`), and so are the frames but for the numbers of the arguments in the slots of the top one
//!   (`frames`). The call stays asked for then, which the frames don't tell: the run that the plan leaves has it in its
//!   top frame (the definition `settled`).
//! - `next`: the same for a native call that was accepted and goes on, with the next callback or the reply. No object
//!   moves (`objects`); where the run ends host, memory and frames are as they were (`same`, `memory`, `frames`).
//!
//! All three need a host that serves under the notes and the script (`IsServing`, which they keep: `serving`) and room
//! for an event (`HasRoom`, of which they leave the rest: `room`; the capacity for events never shrinks: `capacity`).
//! `next` needs a frame above which a call is under way (`IsCalled`); `call` a frame, and a memory that has what the
//! host has placed. Where a function is to be entered there are fewer than nine frames (`depth`).
//!
//! - `make_thunk`: what the host sees of the thunk cell tells the step (`step`). A cell that names a function gets the
//!   address of its thunk (`cell`), no object moves (`objects`), and one thunk more is served, up to 2^64 - 1
//!   (`served`, `count`). Where the run ends nothing changes (`memory`, `same`).
//! - `trace`, `into_trace`: the events. `image_base`, `gate`, `stack_end`: of the host's placement.
//! - `HostStep`: what a step comes to.
//!
//! At a bound call, by which an image calls a function of another one:
//!
//! - `bound_at`: the bound call that a call instruction at a place is, if it is one (`bound`). It needs notes that were
//!   read.
//! - `bound_call`, on the caller's host, by R0, the place and the target: what the call step comes to as far as the
//!   caller's image goes (`step`, the definition `bound_step`): its event, and either the call by the site's signature
//!   with these arguments, as many as that has parameters (`called`), or how the run ends where there is no site, a
//!   slot isn't mapped, or the target is another one. So it is in each state of the caller's run that has the memory,
//!   R0 and the typed objects. The host stays as it is, and tells nothing; the numbers of the arguments go into the
//!   slots of the top frame (`slots`), which count for nothing while a call is asked for (`hosts`). It needs a frame.
//! - `provider_refused`, on the provider's host: how the pair ends where the function can't take these arguments, the
//!   definition of that name (`refused`): while fewer thunk cells are served than the notes have, or at the first
//!   argument that doesn't fit its parameter.
//! - `bound_reply`, on the caller's host: how the pair ends where the value that the function gave doesn't fit the
//!   result of the signature, or the number that R7 gets (`answer`, the definition `bound_answer`). With a number no
//!   call is under way any more in the top frame (`hosts`); else the frames stay (`same`).
#![tactic(auto)]

mod arguments;
mod asking;
mod bound;
mod call;
mod cells;
mod entering;
mod host;
mod items;
mod next;
mod notify;
mod places;
mod placing;
mod reading;
mod replying;
mod sort;
mod starting;
mod step;
mod thunks;
mod values;

pub use bound::{BoundCall, BoundStep, bound_at};
pub use host::Host;
pub use note_types::{Args, Event, Reason};
pub use starting::start;
pub use step::HostStep;
