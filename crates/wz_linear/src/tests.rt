//! Calls on a memory, with the bytes that the standard gives.

ghost use Rattle.std.specs.Prelude.{◌≡◌, ◌*◌, length};

use crate::{Linear, PAGE_SIZE, PlainMemory};
use std::process::Abort;
use std::test::Fail;

/// Grows a memory of one page, and stores at its very end and past it.
fn stores_at_the_end<M: Linear>(rt: &impl Abort, memory: &mut M) -> Result<(), Fail>
    requires { length (M.contents memory.old) ≡ PAGE_SIZE }
{
    memory.grow(1)?;
    assert_eq!(rt; memory.size_pages(), 2);
    assert!(rt; memory.store(131_071, 0x1FF, 1)?);
    assert!(rt; !memory.store(131_071, 0x1FF, 2)?, "no part is written");
    assert!(rt; !memory.store(131_072, 7, 1)?);
    assert!(rt; !memory.store(u64::MAX, 7, 8)?, "places don't wrap");
    assert_eq!(rt; memory.load(131_068, 4), Some(0xFF00_0000));
    assert_eq!(rt; memory.load(131_069, 4), None);
    assert_eq!(rt; memory.load(u64::MAX, 1), None);
    assert!(rt; memory.fill(131_072, 9, 0)?, "an empty range at the end");
    assert!(rt; !memory.fill(131_073, 9, 0)?, "an empty range past it");
    Ok(())
}

/// The lowest byte stands first, and a copy of overlapping ranges acts as if through a buffer.
fn moves_bytes<M: Linear>(rt: &impl Abort, memory: &mut M) -> Result<(), Fail> {
    let mut seen = [0; 8];
    assert!(rt; memory.store(0, 0xFFF0_0000_0000_0001, 8)?);
    assert!(rt; memory.read_into(0, &mut seen));
    assert_eq!(rt; seen, [1, 0, 0, 0, 0, 0, 0xF0, 0xFF]);
    assert_eq!(rt; memory.load(6, 2), Some(0xFFF0));

    assert!(rt; memory.write_slice(8, &[1, 2, 3, 4, 5, 6, 7, 8])?);
    assert!(rt; memory.copy(10, 8, 6)?);
    assert!(rt; memory.read_into(8, &mut seen));
    assert_eq!(rt; seen, [1, 2, 1, 2, 3, 4, 5, 6]);
    assert!(rt; memory.copy(8, 9, 7)?);
    assert!(rt; memory.read_into(8, &mut seen));
    assert_eq!(rt; seen, [2, 1, 2, 3, 4, 5, 6, 6]);
    assert!(rt; !memory.copy(0, u64::MAX, 2)?);

    assert!(rt; memory.fill(9, 7, 3)?);
    assert_eq!(rt; memory.load(8, 8), Some(0x0606_0504_0707_0702));
    Ok(())
}

#[test]
fn plain_memory(rt: HostRuntime) -> Result<(), Fail> {
    let mut memory = PlainMemory::zeroed(rt.alloc(), 1)?;
    stores_at_the_end(&rt, &mut memory)?;
    moves_bytes(&rt, &mut memory)?;
    assert!(rt; !memory.read_into(131_065, &mut [0; 8]));
    assert_eq!(rt; memory.size_pages(), 2);
    assert!(rt;
        !memory.untouched(1),
        "a memory in one vector knows of no page"
    );
    Ok(())
}
