//! What numbers mean at the two widths.
use ebc_width::{cut, extend, linear};

#[test]
fn the_two_widths(rt: HostRuntime) {
    assert!(rt; cut::<4>(0x0000_0001_2345_6789) == 0x2345_6789);
    assert!(rt; cut::<8>(0x0000_0001_2345_6789) == 0x0000_0001_2345_6789);

    // An EFI status that is an error has the top bit of a pointer's width.
    assert!(rt; extend::<4>(0x0000_0000_8000_000E) == 0xFFFF_FFFF_8000_000E);
    assert!(rt; extend::<4>(0x0000_0001_0000_000E) == 0x0000_0000_0000_000E);
    assert!(rt; extend::<8>(0x8000_0000_0000_000E) == 0x8000_0000_0000_000E);

    // The pair of the index 0xA048.
    assert!(rt; linear::<4>(-8, -4).cast_signed() == -36);
    assert!(rt; linear::<8>(-8, -4).cast_signed() == -68);
    assert!(rt; linear::<8>(i64::MAX, 0).cast_signed() == -8);
}
