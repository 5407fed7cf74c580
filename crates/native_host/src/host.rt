//! The host of a run.
use crate::places::Places;
use host_model::TypedObject;
use note_types::Event;

/// The modelled host of a run at a width of `W` bytes (docs/HOST.md). It keeps where its things lie, which typed objects are
/// made, how far the script is, and the events. Nothing is allocated once it is started.
#[derive(Drop)]
pub struct Host<const W: usize> {
    pub(crate) places: Places,
    // The typed objects that are made.
    pub(crate) made: Vec<TypedObject>,
    // How many calls of the script were accepted, how many notifications were entered, and how many thunks were served.
    pub(crate) entries: u32,
    pub(crate) notifications: u32,
    pub(crate) thunks: u64,
    pub(crate) trace: Vec<Event>,
}

impl<const W: usize> Host<W> {
    ghost use Rattle.std.specs.Prelude.{◌≡◌};
    ghost use Rattle.note_types.specs.declared.notes.Notes.{Notes};
    ghost use Rattle.host_model.specs.Placements.{stack_end};
    ghost use Rattle.native_host.specs.Kept.{IsOf, placement_of};

    /// The events so far, the first one first.
    pub fn trace(&self) -> &Vec<Event>
        ensures { result.now ≡ self.now.trace }
    {
        &self.trace
    }

    /// The events, handed over.
    pub fn into_trace(self) -> Vec<Event>
        ensures { result ≡ self.entry.trace }
    {
        self.trace
    }

    /// The address at which the image lies.
    pub fn image_base(&self) -> u64
        ensures { result ≡ (placement_of self.now.places).image }
    {
        self.places.image
    }

    /// The address to which the functions return that the host enters.
    pub fn gate(&self) -> u64
        ensures { result ≡ (placement_of self.now.places).native }
    {
        self.places.native
    }

    /// The address past the stack, which is R0 where no function is entered.
    pub fn stack_end(&self) -> u64
        ensures { (notes : Notes) → IsOf W notes self.now.places → result ≡ stack_end W notes (placement_of self.now.places) }
    {
        self.places.stack + self.places.stack_bytes
    }
}
