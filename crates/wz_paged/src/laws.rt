//! That pages put together are one list of bytes.
//!
//! The function does nothing. A proof cites what it ensures.

ghost use Rattle.wz_paged.specs.Laws.{PagesAreFull, ReadsInPage, WritesInPage, GrowsByPages};

/// The list that pages make: its length, a range within one of them, and pages that are added.
pub fn pages_together()
    ensures size { PagesAreFull }
    ensures read { ReadsInPage }
    ensures written { WritesInPage }
    ensures grown { GrowsByPages }
{}
