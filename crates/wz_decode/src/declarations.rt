//! The sections in front of the code: types, imports, functions, tables, memories. A section is
//! taken where it is in order and its contents are in the grammar.

ghost use Rattle.std.specs.Prelude.{◌≡◌, ◌<◌, ◌≤◌, ◌-◌, ◌^◌, ◌++◌, ◌∷◌, [], length, IfOk, OnOk, IsErrOf};
ghost use Rattle.wz_module.specs.Views.{section_of, module_with};
ghost use Rattle.wz_decode_sections.specs.declared.fault.SectionFault.TheVariants.{Bad};
ghost use Rattle.wz_decode.specs.Contents.{IsInGrammar};
ghost use Rattle.wz_decode.specs.Front.{HasFront, MayFollow};

use std::alloc::Global;
use wz_decode_sections::{
    SectionFault, read_functions, read_imports, read_memories, read_tables, read_types,
};
use wz_module::{ModuleParts, Section};

/// Takes the type section.
pub(crate) fn take_types<'a>(
    alloc: Global,
    parts: &mut ModuleParts<'a>,
    last: u8,
    section: Section<'a>,
) -> Result<u8, SectionFault>
    requires front { HasFront (module_with parts.old) last }
    requires small { length section.payload.now < 2 ^ 32 - 1 }
    requires id { section.id ≡ 1 }
    ensures ok { IfOk result (λ now. HasFront (module_with parts.new) now) }
    ensures sections { OnOk result
        (parts.new.sections.items ≡ parts.old.sections.items ++ section.entry ∷ []) }
    ensures contents { OnOk result (IsInGrammar (section_of section.entry)) }
    ensures bad { IsErrOf result Bad → MayFollow last (section_of section.entry) → ⊥ }
{
    if last >= 1 {
        return Err(SectionFault::Bad);
    }
    let types = read_types(alloc, section.payload)?;
    parts.sections.push(section)?;
    parts.types = types;
    Ok(1)
}

/// Takes the import section.
pub(crate) fn take_imports<'a>(
    alloc: Global,
    parts: &mut ModuleParts<'a>,
    last: u8,
    section: Section<'a>,
) -> Result<u8, SectionFault>
    requires front { HasFront (module_with parts.old) last }
    requires small { length section.payload.now < 2 ^ 32 - 1 }
    requires id { section.id ≡ 2 }
    ensures ok { IfOk result (λ now. HasFront (module_with parts.new) now) }
    ensures sections { OnOk result
        (parts.new.sections.items ≡ parts.old.sections.items ++ section.entry ∷ []) }
    ensures contents { OnOk result (IsInGrammar (section_of section.entry)) }
    ensures bad { IsErrOf result Bad → MayFollow last (section_of section.entry) → ⊥ }
{
    if last >= 2 {
        return Err(SectionFault::Bad);
    }
    let imports = read_imports(alloc, section.payload)?;
    parts.sections.push(section)?;
    parts.imports = imports;
    Ok(2)
}

/// Takes the function section.
pub(crate) fn take_functions<'a>(
    alloc: Global,
    parts: &mut ModuleParts<'a>,
    last: u8,
    section: Section<'a>,
) -> Result<u8, SectionFault>
    requires front { HasFront (module_with parts.old) last }
    requires small { length section.payload.now < 2 ^ 32 - 1 }
    requires id { section.id ≡ 3 }
    ensures ok { IfOk result (λ now. HasFront (module_with parts.new) now) }
    ensures sections { OnOk result
        (parts.new.sections.items ≡ parts.old.sections.items ++ section.entry ∷ []) }
    ensures contents { OnOk result (IsInGrammar (section_of section.entry)) }
    ensures bad { IsErrOf result Bad → MayFollow last (section_of section.entry) → ⊥ }
{
    if last >= 3 {
        return Err(SectionFault::Bad);
    }
    let functions = read_functions(alloc, section.payload)?;
    parts.sections.push(section)?;
    parts.functions = functions;
    Ok(3)
}

/// Takes the table section.
pub(crate) fn take_tables<'a>(
    alloc: Global,
    parts: &mut ModuleParts<'a>,
    last: u8,
    section: Section<'a>,
) -> Result<u8, SectionFault>
    requires front { HasFront (module_with parts.old) last }
    requires small { length section.payload.now < 2 ^ 32 - 1 }
    requires id { section.id ≡ 4 }
    ensures ok { IfOk result (λ now. HasFront (module_with parts.new) now) }
    ensures sections { OnOk result
        (parts.new.sections.items ≡ parts.old.sections.items ++ section.entry ∷ []) }
    ensures contents { OnOk result (IsInGrammar (section_of section.entry)) }
    ensures bad { IsErrOf result Bad → MayFollow last (section_of section.entry) → ⊥ }
{
    if last >= 4 {
        return Err(SectionFault::Bad);
    }
    let tables = read_tables(alloc, section.payload)?;
    parts.sections.push(section)?;
    parts.tables = tables;
    Ok(4)
}

/// Takes the memory section.
pub(crate) fn take_memories<'a>(
    alloc: Global,
    parts: &mut ModuleParts<'a>,
    last: u8,
    section: Section<'a>,
) -> Result<u8, SectionFault>
    requires front { HasFront (module_with parts.old) last }
    requires small { length section.payload.now < 2 ^ 32 - 1 }
    requires id { section.id ≡ 5 }
    ensures ok { IfOk result (λ now. HasFront (module_with parts.new) now) }
    ensures sections { OnOk result
        (parts.new.sections.items ≡ parts.old.sections.items ++ section.entry ∷ []) }
    ensures contents { OnOk result (IsInGrammar (section_of section.entry)) }
    ensures bad { IsErrOf result Bad → MayFollow last (section_of section.entry) → ⊥ }
{
    if last >= 5 {
        return Err(SectionFault::Bad);
    }
    let memories = read_memories(alloc, section.payload)?;
    parts.sections.push(section)?;
    parts.memories = memories;
    Ok(5)
}
