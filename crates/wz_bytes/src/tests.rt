//! Values from the standard's rules, and published examples of LEB128.

ghost use Rattle.wz_bytes.specs.declared.vectors.ItemFault.TheVariants.{Bad};

use crate::{
    Cursor, Item, ItemFault, put_signed, put_unsigned, read_all, read_signed, read_unsigned,
};
use std::alloc::Global as Heap;
use std::test::Fail;

// The bits, the bytes, and the value with the place behind it.
const UNSIGNED: [(u32, &[u8], Option<(u64, usize)>); 14] = [
    (32, &[], None),
    (32, &[0x00], Some((0, 1))),
    (32, &[0x7F, 0x80], Some((127, 1))),
    (32, &[0x80], None),
    (32, &[0x80, 0x00], Some((0, 2))),
    (32, &[0xE5, 0x8E, 0x26], Some((624485, 3))),
    (32, &[0xE5, 0x8E, 0xA6, 0x80, 0x00], Some((624485, 5))),
    (32, &[0xFF, 0xFF, 0xFF, 0xFF, 0x0F], Some((4294967295, 5))),
    (32, &[0x80, 0x80, 0x80, 0x80, 0x10], None),
    (32, &[0x80, 0x80, 0x80, 0x80, 0x80, 0x00], None),
    (32, &[0xFF, 0xFF, 0xFF, 0xFF], None),
    (33, &[0xFF, 0xFF, 0xFF, 0xFF, 0x1F], Some((8589934591, 5))),
    (
        64,
        &[0xFF, 0xFF, 0xFF, 0xFF, 0xFF, 0xFF, 0xFF, 0xFF, 0xFF, 0x01],
        Some((u64::MAX, 10)),
    ),
    (
        64,
        &[
            0x80, 0x80, 0x80, 0x80, 0x80, 0x80, 0x80, 0x80, 0x80, 0x80, 0x00,
        ],
        None,
    ),
];

const SIGNED: [(u32, &[u8], Option<(i64, usize)>); 16] = [
    (32, &[], None),
    (32, &[0x3F], Some((63, 1))),
    (32, &[0x40], Some((-64, 1))),
    (32, &[0xC0, 0x00], Some((64, 2))),
    (32, &[0xBF, 0x7F], Some((-65, 2))),
    (32, &[0xFF, 0x7F], Some((-1, 2))),
    (32, &[0xFF, 0xFF, 0x07], Some((131071, 3))),
    (32, &[0xC0, 0xBB, 0x78], Some((-123456, 3))),
    (32, &[0xFF, 0xFF, 0xFF, 0xFF, 0x07], Some((2147483647, 5))),
    (32, &[0x80, 0x80, 0x80, 0x80, 0x78], Some((-2147483648, 5))),
    (32, &[0xFF, 0xFF, 0xFF, 0xFF, 0xFF, 0x7F], None),
    (32, &[0xFF, 0xFF, 0xFF, 0xFF], None),
    (33, &[0xFF, 0xFF, 0xFF, 0xFF, 0x0F], Some((4294967295, 5))),
    (33, &[0x80, 0x80, 0x80, 0x80, 0x70], Some((-4294967296, 5))),
    (
        64,
        &[0xFF, 0xFF, 0xFF, 0xFF, 0xFF, 0xFF, 0xFF, 0xFF, 0xFF, 0x00],
        Some((i64::MAX, 10)),
    ),
    (
        64,
        &[0x80, 0x80, 0x80, 0x80, 0x80, 0x80, 0x80, 0x80, 0x80, 0x7F],
        Some((i64::MIN, 10)),
    ),
];

// The bits, the last byte of a spelling of the greatest length behind bytes of 80, and the value.
// None stands where one unused bit is wrong, each in turn at either sign.
const LAST_UNSIGNED: [(u32, u8, Option<u64>); 14] = [
    (32, 0x00, Some(0)),
    (32, 0x10, None),
    (32, 0x20, None),
    (32, 0x40, None),
    (33, 0x00, Some(0)),
    (33, 0x20, None),
    (33, 0x40, None),
    (64, 0x00, Some(0)),
    (64, 0x02, None),
    (64, 0x04, None),
    (64, 0x08, None),
    (64, 0x10, None),
    (64, 0x20, None),
    (64, 0x40, None),
];

const LAST_SIGNED: [(u32, u8, Option<i64>); 28] = [
    (32, 0x00, Some(0)),
    (32, 0x7F, Some(-0x1000_0000)),
    (32, 0x10, None),
    (32, 0x20, None),
    (32, 0x40, None),
    (32, 0x68, None),
    (32, 0x58, None),
    (32, 0x38, None),
    (33, 0x00, Some(0)),
    (33, 0x7F, Some(-0x1000_0000)),
    (33, 0x20, None),
    (33, 0x40, None),
    (33, 0x50, None),
    (33, 0x30, None),
    (64, 0x00, Some(0)),
    (64, 0x7F, Some(i64::MIN)),
    (64, 0x01, None),
    (64, 0x02, None),
    (64, 0x04, None),
    (64, 0x08, None),
    (64, 0x10, None),
    (64, 0x20, None),
    (64, 0x40, None),
    (64, 0x7E, None),
    (64, 0x7D, None),
    (64, 0x7B, None),
    (64, 0x77, None),
    (64, 0x6F, None),
];

const WRITTEN_UNSIGNED: [(u64, &[u8]); 5] = [
    (0, &[0x00]),
    (127, &[0x7F]),
    (128, &[0x80, 0x01]),
    (624485, &[0xE5, 0x8E, 0x26]),
    (4294967295, &[0xFF, 0xFF, 0xFF, 0xFF, 0x0F]),
];

const WRITTEN_SIGNED: [(i64, &[u8]); 6] = [
    (63, &[0x3F]),
    (64, &[0xC0, 0x00]),
    (-64, &[0x40]),
    (-65, &[0xBF, 0x7F]),
    (-123456, &[0xC0, 0xBB, 0x78]),
    (
        i64::MIN,
        &[0x80, 0x80, 0x80, 0x80, 0x80, 0x80, 0x80, 0x80, 0x80, 0x7F],
    ),
];

fn unsigned_of(bits: u32, bytes: &[u8]) -> Option<(u64, usize)> {
    match bits {
        32 => read_unsigned::<32>(bytes, 0),
        33 => read_unsigned::<33>(bytes, 0),
        _ => read_unsigned::<64>(bytes, 0),
    }
}

fn signed_of(bits: u32, bytes: &[u8]) -> Option<(i64, usize)> {
    match bits {
        32 => read_signed::<32>(bytes, 0),
        33 => read_signed::<33>(bytes, 0),
        _ => read_signed::<64>(bytes, 0),
    }
}

#[test]
fn reads_numbers(rt: HostRuntime) {
    for (bits, bytes, value) in UNSIGNED {
        assert_eq!(rt; unsigned_of(bits, bytes), value, "u{bits} {bytes:?}");
    }
    for (bits, bytes, value) in SIGNED {
        assert_eq!(rt; signed_of(bits, bytes), value, "s{bits} {bytes:?}");
    }
    for (bits, last, value) in LAST_UNSIGNED {
        let bytes = [0x80, 0x80, 0x80, 0x80, 0x80, 0x80, 0x80, 0x80, 0x80, last];
        let length = if bits == 64 { 10 } else { 5 };
        let value = value.map(|n| (n, length));
        assert_eq!(rt;
            unsigned_of(bits, &bytes[10 - length..]),
            value,
            "u{bits} {last}"
        );
    }
    for (bits, last, value) in LAST_SIGNED {
        let bytes = [0x80, 0x80, 0x80, 0x80, 0x80, 0x80, 0x80, 0x80, 0x80, last];
        let length = if bits == 64 { 10 } else { 5 };
        let value = value.map(|z| (z, length));
        assert_eq!(rt;
            signed_of(bits, &bytes[10 - length..]),
            value,
            "s{bits} {last}"
        );
    }
}

#[test]
fn writes_numbers(rt: HostRuntime) -> Result<(), Fail> {
    for (value, bytes) in WRITTEN_UNSIGNED {
        let mut out = Vec::new(rt.alloc());
        put_unsigned(&mut out, value)?;
        assert_eq!(rt; out.as_slice(), bytes, "u {value}");
    }
    for (value, bytes) in WRITTEN_SIGNED {
        let mut out = Vec::new(rt.alloc());
        put_signed(&mut out, value)?;
        assert_eq!(rt; out.as_slice(), bytes, "s {value}");
    }
    Ok(())
}

#[test]
fn walks(rt: HostRuntime) {
    // A number, a name of two characters, a name that isn't UTF-8, and two bytes.
    let bytes = [
        0x80, 0x01, 0x03, 0x61, 0xC3, 0xA9, 0x02, 0xC3, 0x28, 0x05, 0x61,
    ];
    let mut cursor = Cursor::new(&bytes);
    assert_eq!(rt; cursor.number(), Some(128));
    assert_eq!(rt; cursor.name(), Some("a\u{E9}"));
    assert_eq!(rt; cursor.name(), None);
    assert_eq!(rt; cursor.at(), 6);
    assert_eq!(rt; cursor.byte(), Some(2));
    assert_eq!(rt; cursor.take(5), None);
    assert_eq!(rt; cursor.take(2), Some([0xC3, 0x28].as_slice()));
    assert_eq!(rt; cursor.name(), None);
    assert_eq!(rt; cursor.left(), [0x05, 0x61].as_slice());
}

#[test]
fn walks_signed(rt: HostRuntime) {
    // -128 twice, 2^32 - 1, which 32 bits don't hold, and -2 in ten bytes, too many for 33 bits.
    let bytes = [
        0x80, 0x7F, 0x80, 0x7F, 0xFF, 0xFF, 0xFF, 0xFF, 0x0F, 0xFE, 0xFF, 0xFF, 0xFF, 0xFF, 0xFF,
        0xFF, 0xFF, 0xFF, 0x7F,
    ];
    let mut cursor = Cursor::new(&bytes);
    assert_eq!(rt; cursor.signed_32(), Some(-128));
    assert_eq!(rt; cursor.signed_64(), Some(-128));
    assert_eq!(rt; cursor.signed_32(), None);
    assert_eq!(rt; cursor.signed_33(), Some(4294967295));
    assert_eq!(rt; cursor.signed_33(), None);
    assert_eq!(rt; cursor.signed_64(), Some(-2));
    assert_eq!(rt; cursor.at(), 19);
}

/// Bytes, as the items of a vector.
struct Bytes;

impl<'a> Item<'a> for Bytes {
    ghost use Rattle.std.specs.Prelude.{◌≡◌, Some, None};
    ghost use Rattle.wz_bytes.specs.Forms.{byte_at};

    type Value = u8;

    ghost reads = { λ bytes x rest. byte_at bytes ≡ Some (x, rest) };

    ghost bad = { λ bytes. byte_at bytes ≡ None };

    fn take(_alloc: Heap, cursor: &mut Cursor<'a>) -> Result<u8, ItemFault> {
        match cursor.byte() {
            Some(byte) => Ok(byte),
            None => Err(ItemFault::Bad),
        }
    }
}

// What a section's contents are as a vector of bytes.
const VECTORS: [(&[u8], Result<&[u8], ItemFault>); 6] = [
    (&[], Err(ItemFault::Bad)),
    (&[0x00], Ok(&[])),
    (&[0x02, 0x05, 0x06], Ok(&[0x05, 0x06])),
    (&[0x82, 0x00, 0x05, 0x06], Ok(&[0x05, 0x06])),
    (&[0x02, 0x05], Err(ItemFault::Bad)),
    (&[0x02, 0x05, 0x06, 0x07], Err(ItemFault::Bad)),
];

#[test]
fn reads_vectors(rt: HostRuntime) {
    for (bytes, items) in VECTORS {
        match (read_all::<Bytes>(rt.alloc(), bytes), items) {
            (Ok(read), Ok(items)) => assert_eq!(rt; read.as_slice(), items, "{bytes:?}"),
            (Err(fault), Err(wanted)) => assert_eq!(rt; fault, wanted, "{bytes:?}"),
            (read, _) => assert!(rt; false, "{bytes:?}, read: {}", read.is_ok()),
        }
    }
}
