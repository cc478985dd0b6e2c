//! Why an instruction on a whole range is what the standard's rules come to, which go item by item.
//!
//! These functions do nothing. A caller's proof cites what they ensure.

ghost use Rattle.wz_bulk.specs.OneByOne.{FillsEntriesByOne, CopiesEntriesByOne, MovesEntriesByOne};
ghost use Rattle.wz_bulk.specs.OneByOne.{FillsBytesByOne, CopiesBytesByOne, MovesBytesByOne};

/// Entries of a table, written one by one.
pub fn entries_one_by_one()
    ensures filled { FillsEntriesByOne }
    ensures copied { CopiesEntriesByOne }
    ensures moved { MovesEntriesByOne }
{}

/// Bytes of a memory, stored one by one.
pub fn bytes_one_by_one()
    ensures filled { FillsBytesByOne }
    ensures copied { CopiesBytesByOne }
    ensures moved { MovesBytesByOne }
{}
