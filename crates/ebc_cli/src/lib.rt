//! The commands of the program `ebc`: what the words ask for, over a folder of files and an output.
//!
//! The program calls [`ebc`]. docs/COMMANDS.md lists the commands, the lines that they print and the exit status;
//! docs/RULES.md has the rules of the check of images, docs/PLAIN.md those of the plain check, docs/ASSEMBLY.md the
//! language of sources and what is listed of an image, docs/HOST.md what a run is, docs/OBJECTS.md the file of an
//! object, and docs/ROMS.md option ROMs. The call [`check_bytes`] is the check of an image by the bytes of two files.
#![tactic(auto)]

mod answer;
mod checking;
mod command;
mod inferring;
mod number;
mod pairing;
mod reading;
mod rom_text;
mod running;
mod sampling;
mod text;
mod width;
mod work;

pub use answer::ebc;
pub use checking::{Checked, check_bytes};
pub use cli_base::Outcome;
pub use width_checker::RuleName;
