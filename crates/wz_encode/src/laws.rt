//! What is written spells what it is written for, by the grammar of sections: the contract of each
//! function is a law, and its body is empty.

ghost use Rattle.wz_encode.specs.Laws.{SectionIsSpelled, CountIsSpelled};
ghost use Rattle.wz_encode.specs.Laws.{MemoriesAreSpelled, ConstantIsSpelled, GlobalsAreSpelled};
ghost use Rattle.wz_encode.specs.Laws.{ExportIsSpelled, ExportsAreSpelled};
ghost use Rattle.wz_encode.specs.Laws.{DataIsSpelled, DatasAreSpelled, ElementsAreSpelled};
ghost use Rattle.wz_encode.specs.Laws.{DeclarationIsSpelled, SpansLieWithin, SpansCoverSegments};
ghost use Rattle.wz_encode.specs.Laws.{MemoriesAreBytes, GlobalsAreBytes, ExportsAreBytes};
ghost use Rattle.wz_encode.specs.Laws.{ElementsAreBytes, DatasAreBytes, CountIsBytes};

/// A section whose id is a byte and whose contents are fewer than 2^32 bytes; a data count.
pub fn sections_are_spelled()
    ensures section { SectionIsSpelled }
    ensures count { CountIsSpelled }
{}

/// The contents of the memory, global and export sections.
pub fn lists_are_spelled()
    ensures memories { MemoriesAreSpelled }
    ensures constant { ConstantIsSpelled }
    ensures globals { GlobalsAreSpelled }
    ensures export { ExportIsSpelled }
    ensures exports { ExportsAreSpelled }
{}

/// The contents of the element section, where there was none and where there was one.
pub fn elements_are_spelled()
    ensures within { SpansLieWithin }
    ensures cover { SpansCoverSegments }
    ensures declaration { DeclarationIsSpelled }
    ensures elements { ElementsAreSpelled }
{}

/// An entry of the data section, a head with the bytes behind it, and the whole of its contents.
pub fn datas_are_spelled()
    ensures data { DataIsSpelled }
    ensures datas { DatasAreSpelled }
{}

/// Whatever is written are bytes: numbers below 256.
pub fn written_are_bytes()
    ensures memories { MemoriesAreBytes }
    ensures globals { GlobalsAreBytes }
    ensures exports { ExportsAreBytes }
    ensures elements { ElementsAreBytes }
    ensures datas { DatasAreBytes }
    ensures count { CountIsBytes }
{}
