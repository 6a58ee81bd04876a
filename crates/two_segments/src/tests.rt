//! The corners of the memory map, for each width, each region and ranges.

use super::Segments;
use std::test::Fail;
use x64_decode::{Seg, Width};

/// Accesses of 65,536 bytes whose first mapped bytes are `ab` in the public and `cd` in the private segment.
#[test]
fn corners_of_each_width(rt: HostRuntime) -> Result<(), Fail> {
    let segs = Segments::new(rt.alloc(), 65536, b"", b"ab", b"cd")?;
    for (seg, off, width, value) in [
        (Seg::Fs, 4095, Width::B1, None),
        (Seg::Fs, 4096, Width::B1, Some(0x61)),
        (Seg::Fs, 65535, Width::B1, Some(0)),
        (Seg::Fs, 65536, Width::B1, None),
        (Seg::Gs, 4093, Width::B4, None),
        (Seg::Gs, 4096, Width::B4, Some(0x6463)),
        (Seg::Gs, 65532, Width::B4, Some(0)),
        (Seg::Gs, 65533, Width::B4, None),
        (Seg::Gs, 4092, Width::B8, None),
        (Seg::Fs, 4096, Width::B8, Some(0x6261)),
        (Seg::Fs, 65528, Width::B8, Some(0)),
        (Seg::Fs, 65529, Width::B8, None),
        (Seg::Gs, 0, Width::B8, None),
        (Seg::Gs, 0xffff_ffff, Width::B1, None),
        (Seg::Gs, 0xffff_ffff, Width::B8, None),
    ] {
        assert_eq!(rt; segs.read(seg, off, width), value);
    }
    Ok(())
}

#[test]
fn writes_and_flat_addresses(rt: HostRuntime) -> Result<(), Fail> {
    let code = [0x90u8; 12];
    let mut segs = Segments::new(rt.alloc(), 65536, &code, b"", b"")?;
    assert_eq!(rt;
        segs.write(Seg::Fs, 4096, Width::B8, 0x1122_3344_5566_7788),
        true
    );
    assert_eq!(rt; segs.write(Seg::Fs, 4097, Width::B1, 0xfff), true);
    assert_eq!(rt; segs.write(Seg::Gs, 65532, Width::B4, 0xaa_bbcc_ddee), true);
    assert_eq!(rt; segs.write(Seg::Gs, 65533, Width::B4, 1), false);
    assert_eq!(rt; segs.flat_write(0x2_0000_fff9, 1), false);
    assert_eq!(rt; segs.flat_write(0x1_0000, 1), false);
    assert_eq!(rt; segs.flat_write(0x4_0000_2000, 7), true);
    for (at, value) in [
        (0xffff, None),
        (0x1_0000, Some(0x9090_9090_9090_9090)),
        (0x1_0004, Some(0x9090_9090_9090_9090)),
        (0x1_0005, None),
        (0x1000, None),
        (0x2_0000_0fff, None),
        (0x2_0000_1000, Some(0x1122_3344_5566_ff88)),
        (0x2_0000_fff8, Some(0)),
        (0x2_0000_fff9, None),
        (0x4_0000_0fff, None),
        (0x4_0000_1000, Some(0)),
        (0x4_0000_fff8, Some(0xbbcc_ddee_0000_0000)),
        (0x4_0000_fff9, None),
        (0x4_0000_2000, Some(7)),
        (0xffff_ffff_ffff_ffff, None),
    ] {
        assert_eq!(rt; segs.flat_read(at), value);
    }
    Ok(())
}

#[test]
fn ranges_are_copied(rt: HostRuntime) -> Result<(), Fail> {
    let mut segs = Segments::new(rt.alloc(), 65536, b"", b"ab", b"cd")?;
    for (at, len, good) in [
        (0, 0, true),
        (0xffff_ffff_ffff_ffff, 0, true),
        (4095, 1, false),
        (4096, 61440, true),
        (4096, 61441, false),
        (4096, 0xffff_ffff_ffff_ffff, false),
        (65535, 1, true),
        (65536, 1, false),
    ] {
        assert_eq!(rt; segs.is_good(at, len), good);
    }
    let is_good = segs.is_good(65533, 3);
    assert!(rt; is_good);
    segs.put_range(Seg::Gs, 65533, b"xyz");
    assert_eq!(rt; segs.range(Seg::Gs, 65533, 3), b"xyz".as_slice());
    assert_eq!(rt; segs.range(Seg::Fs, 65533, 3), b"\0\0\0".as_slice());
    assert_eq!(rt; segs.range(Seg::Fs, 1, 0), b"".as_slice());
    Ok(())
}
