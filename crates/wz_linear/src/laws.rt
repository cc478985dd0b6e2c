//! What a memory holds after a write, stated once for all memories.
//!
//! These functions do nothing. A caller's proof cites what they ensure, which speaks of lists of
//! bytes alone and so of every `Linear`.

ghost use Rattle.wz_linear.specs.Laws.{WriteKeepsSize, RangeIsFull, ReadsWhatWasWritten, ReadsAllWritten, ReadsWhatStoodApart, HoldsWhatWasWritten, HoldsWhatStoodApart};
ghost use Rattle.wz_linear.specs.Laws.{WritesJoin, WritesReplace, WritesSwap, WriteOfSame};
ghost use Rattle.wz_linear.specs.Laws.{StoreIsFull, LoadsWhatWasStored, NumberOfBytes, BytesOfNumber};
ghost use Rattle.wz_linear.specs.Laws.{GrowthKeepsRanges, RangeOfEqualBytes, NumberOfZeros};

/// A read after a write, at the range that was written and apart from it.
pub fn read_after_write()
    ensures size { WriteKeepsSize }
    ensures full { RangeIsFull }
    ensures inside { ReadsWhatWasWritten }
    ensures all { ReadsAllWritten }
    ensures apart { ReadsWhatStoodApart }
{}

/// A byte after a write.
pub fn byte_after_write()
    ensures inside { HoldsWhatWasWritten }
    ensures apart { HoldsWhatStoodApart }
{}

/// Two writes, one after the other.
pub fn write_after_write()
    ensures join { WritesJoin }
    ensures replace { WritesReplace }
    ensures swap { WritesSwap }
    ensures same { WriteOfSame }
{}

/// A load after a store.
pub fn load_after_store()
    ensures full { StoreIsFull }
    ensures loaded { LoadsWhatWasStored }
    ensures number { NumberOfBytes }
    ensures bytes { BytesOfNumber }
{}

/// A read after growth, and what a new memory holds.
pub fn read_after_growth()
    ensures kept { GrowthKeepsRanges }
    ensures equal { RangeOfEqualBytes }
    ensures zero { NumberOfZeros }
{}
