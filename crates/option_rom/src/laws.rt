//! Laws of option ROMs and of the images in them.

ghost use Rattle.option_rom.specs.Laws.{FaultsAreFirst, ImagesAreOne, RomsAreRead, TakenIsInside, ZerosChangeNothing};

/// A file is read as images exactly where it is the option ROM of these, and of no others; and a fault is told of it exactly
/// where it is the first.
pub fn roms_are_read()
    ensures read { RomsAreRead }
    ensures one { ImagesAreOne }
    ensures first { FaultsAreFirst }
{}

/// What is taken out of an option ROM lies inside its file.
pub fn taken_is_inside()
    ensures { TakenIsInside }
{}

/// Zeros behind a file change nothing of the image that it is read as.
pub fn zeros_change_nothing()
    ensures { ZerosChangeNothing }
{}
