//! Worked rows of natural indexes.
use natural_index::{Index, read16, read32, read64, smallest, write16, write32, write64};

#[test]
fn spells_in_16_bits(rt: HostRuntime) {
    let index = Index {
        neg: true,
        tag: 2,
        units: 8,
        bytes: 4,
    };
    assert!(rt; read16(0xA048) == Some(index));
    assert!(rt; index.fits(16));
    assert!(rt; write16(&index) == 0xA048);
    assert!(rt; index.pair() == (-8, -4));

    let minus_zero = Index {
        neg: true,
        tag: 0,
        units: 0,
        bytes: 0,
    };
    assert!(rt; read16(0x8000) == Some(minus_zero));
    assert!(rt; minus_zero.pair() == (0, 0));
    assert!(rt; read16(0x7000) == None);
}

#[test]
fn spells_in_32_and_64_bits(rt: HostRuntime) {
    // 12 natural bits below 16 for the bytes
    let index = Index {
        neg: true,
        tag: 3,
        units: 0x123,
        bytes: 0xABCD,
    };
    assert!(rt; read32(0xBABC_D123) == index);
    assert!(rt; index.fits(32));
    assert!(rt; write32(&index) == 0xBABC_D123);
    assert!(rt; index.pair() == (-291, -43981));
    assert!(rt; !index.fits(16));

    // 40 natural bits below 20 for the bytes
    let index = Index {
        neg: false,
        tag: 5,
        units: 0x12_3456_789A,
        bytes: 0xB_CDEF,
    };
    assert!(rt; read64(0x5BCD_EF12_3456_789A) == index);
    assert!(rt; index.fits(64));
    assert!(rt; write64(&index) == 0x5BCD_EF12_3456_789A);
    assert!(rt; index.pair() == (0x12_3456_789A, 0xB_CDEF));
}

#[test]
fn takes_the_smallest(rt: HostRuntime) {
    for (neg, units, bytes, tag, raw) in [
        (false, 0, 0, 0, 0x0000),
        (false, 1, 0, 1, 0x1001),
        (true, 2, 8, 1, 0x9022),
        (true, 0, 0, 0, 0x8000),
    ] {
        let index = Index {
            neg,
            tag,
            units,
            bytes,
        };
        assert!(rt; smallest(16, neg, units, bytes) == Some(index));
        assert!(rt; index.fits(16));
        assert!(rt; write16(&index) == raw);
    }
    assert!(rt; smallest(16, false, 4096, 0) == None);
}
