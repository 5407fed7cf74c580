//! The listing of a large image.

use ebc_base::Sequence;
use ebc_disasm::list;
use pe_image::{Image, Section};
use std::test::Fail;

// An image of zeros alone, in code: 18 and 11 bytes for the entry, and 8 for each BREAK 0.
#[test]
fn an_image_of_zeros_is_listed(rt: HostRuntime) -> Result<(), Fail> {
    let alloc = rt.alloc();
    let zeros = Section {
        name: *b".text\0\0\0",
        place: 0,
        size: 0x2_0000,
        flags: 0x20,
        bytes: Sequence::new(Vec::new(alloc)),
    };
    let image = Image {
        base: 0,
        entry: 0,
        size: 0x2_0000,
        subsystem: 11,
        sections: Sequence::new(vec![in alloc; zeros]?),
        relocs: Sequence::new(Vec::new(alloc)),
    };
    let text = list(alloc, &image)?;
    assert!(rt; text.len() == 6 + 18 + 11 + 8 * 0x1_0000);
    Ok(())
}
