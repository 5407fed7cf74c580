//! The faults of images: their numbers, and their names as they are printed.
ghost use Rattle.std.specs.Prelude.{◌≡◌};
ghost use Rattle.cli_base.specs.Faults.{image_fault_number, image_fault_text};

use pe_image::ImageFault;

/// The number of a fault of an image, from 1 to 10.
pub fn image_fault_number(fault: ImageFault) -> u8
    ensures { result ≡ image_fault_number fault }
{
    match fault {
        ImageFault::Short => 1,
        ImageFault::Mz => 2,
        ImageFault::Pe => 3,
        ImageFault::Machine => 4,
        ImageFault::Magic => 5,
        ImageFault::Section => 6,
        ImageFault::Overlap => 7,
        ImageFault::Align => 8,
        ImageFault::Reloc => 9,
        ImageFault::Entry => 10,
    }
}

/// The name of a fault of an image.
pub fn image_fault_text(fault: ImageFault) -> &'static str
    ensures { result.now ≡ image_fault_text fault }
{
    match fault {
        ImageFault::Short => "short",
        ImageFault::Mz => "mz",
        ImageFault::Pe => "pe",
        ImageFault::Machine => "machine",
        ImageFault::Magic => "magic",
        ImageFault::Section => "section",
        ImageFault::Overlap => "overlap",
        ImageFault::Align => "align",
        ImageFault::Reloc => "reloc",
        ImageFault::Entry => "entry",
    }
}
