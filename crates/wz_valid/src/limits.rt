//! Limits, and those of tables and memories (Core Specification 2.0, section 3.2).

ghost use Rattle.std.specs.Prelude.{MatchBool};
ghost use Rattle.wz_valid.specs.Limits.{IsMaximumOk, AreLimitsOk, IsTableOk, IsMemoryOk};

use wz_types::{Limits, MemType, TableType};

/// The most entries of a table.
const TABLE_RANGE: u32 = 4_294_967_295;
/// The most pages of a memory.
const MEMORY_RANGE: u32 = 65_536;

fn is_maximum_ok(max: Option<u32>, min: u32, range: u32) -> bool
    ensures { let fine = IsMaximumOk max min range in MatchBool result fine (fine → ⊥) }
{
    match max {
        None => true,
        Some(max) => max <= range && min <= max,
    }
}

fn are_limits_ok(limits: Limits, range: u32) -> bool
    ensures { let fine = AreLimitsOk limits range in MatchBool result fine (fine → ⊥) }
{
    limits.min <= range && is_maximum_ok(limits.max, limits.min, range)
}

pub fn is_table_ok(table: TableType) -> bool
    ensures { MatchBool result (IsTableOk table) (IsTableOk table → ⊥) }
{
    are_limits_ok(table.limits, TABLE_RANGE)
}

pub fn is_memory_ok(memory: MemType) -> bool
    ensures { MatchBool result (IsMemoryOk memory) (IsMemoryOk memory → ⊥) }
{
    are_limits_ok(memory.limits, MEMORY_RANGE)
}
