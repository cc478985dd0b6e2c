//! Globals, exports, the start, elements. A section is taken where it is in order and its contents
//! are in the grammar.

ghost use Rattle.std.specs.Prelude.{◌≡◌, ◌<◌, ◌≤◌, ◌-◌, ◌^◌, ◌++◌, ◌∷◌, [], length, IfOk, OnOk, IsErrOf};
ghost use Rattle.wz_module.specs.Views.{section_of, module_with};
ghost use Rattle.wz_decode_sections.specs.declared.fault.SectionFault.TheVariants.{Bad};
ghost use Rattle.wz_decode.specs.Contents.{IsInGrammar};
ghost use Rattle.wz_decode.specs.Front.{HasFront, MayFollow};

use std::alloc::Global;
use wz_decode_sections::{SectionFault, read_elements, read_exports, read_globals, read_start};
use wz_module::{ModuleParts, Section};

/// Takes the global section.
pub(crate) fn take_globals<'a>(
    alloc: Global,
    parts: &mut ModuleParts<'a>,
    last: u8,
    section: Section<'a>,
) -> Result<u8, SectionFault>
    requires front { HasFront (module_with parts.old) last }
    requires small { length section.payload.now < 2 ^ 32 - 1 }
    requires id { section.id ≡ 6 }
    ensures ok { IfOk result (λ now. HasFront (module_with parts.new) now) }
    ensures sections { OnOk result
        (parts.new.sections.items ≡ parts.old.sections.items ++ section.entry ∷ []) }
    ensures contents { OnOk result (IsInGrammar (section_of section.entry)) }
    ensures bad { IsErrOf result Bad → MayFollow last (section_of section.entry) → ⊥ }
{
    if last >= 6 {
        return Err(SectionFault::Bad);
    }
    let globals = read_globals(alloc, section.payload)?;
    parts.sections.push(section)?;
    parts.globals = globals;
    Ok(6)
}

/// Takes the export section.
pub(crate) fn take_exports<'a>(
    alloc: Global,
    parts: &mut ModuleParts<'a>,
    last: u8,
    section: Section<'a>,
) -> Result<u8, SectionFault>
    requires front { HasFront (module_with parts.old) last }
    requires small { length section.payload.now < 2 ^ 32 - 1 }
    requires id { section.id ≡ 7 }
    ensures ok { IfOk result (λ now. HasFront (module_with parts.new) now) }
    ensures sections { OnOk result
        (parts.new.sections.items ≡ parts.old.sections.items ++ section.entry ∷ []) }
    ensures contents { OnOk result (IsInGrammar (section_of section.entry)) }
    ensures bad { IsErrOf result Bad → MayFollow last (section_of section.entry) → ⊥ }
{
    if last >= 7 {
        return Err(SectionFault::Bad);
    }
    let exports = read_exports(alloc, section.payload)?;
    parts.sections.push(section)?;
    parts.exports = exports;
    Ok(7)
}

/// Takes the start section.
pub(crate) fn take_start<'a>(
    parts: &mut ModuleParts<'a>,
    last: u8,
    section: Section<'a>,
) -> Result<u8, SectionFault>
    requires front { HasFront (module_with parts.old) last }
    requires small { length section.payload.now < 2 ^ 32 - 1 }
    requires id { section.id ≡ 8 }
    ensures ok { IfOk result (λ now. HasFront (module_with parts.new) now) }
    ensures sections { OnOk result
        (parts.new.sections.items ≡ parts.old.sections.items ++ section.entry ∷ []) }
    ensures contents { OnOk result (IsInGrammar (section_of section.entry)) }
    ensures bad { IsErrOf result Bad → MayFollow last (section_of section.entry) → ⊥ }
{
    if last >= 8 {
        return Err(SectionFault::Bad);
    }
    let start = read_start(section.payload)?;
    parts.sections.push(section)?;
    parts.start = Some(start);
    Ok(8)
}

/// Takes the element section.
pub(crate) fn take_elements<'a>(
    alloc: Global,
    parts: &mut ModuleParts<'a>,
    last: u8,
    section: Section<'a>,
) -> Result<u8, SectionFault>
    requires front { HasFront (module_with parts.old) last }
    requires small { length section.payload.now < 2 ^ 32 - 1 }
    requires id { section.id ≡ 9 }
    ensures ok { IfOk result (λ now. HasFront (module_with parts.new) now) }
    ensures sections { OnOk result
        (parts.new.sections.items ≡ parts.old.sections.items ++ section.entry ∷ []) }
    ensures contents { OnOk result (IsInGrammar (section_of section.entry)) }
    ensures bad { IsErrOf result Bad → MayFollow last (section_of section.entry) → ⊥ }
{
    if last >= 9 {
        return Err(SectionFault::Bad);
    }
    let elements = read_elements(alloc, section.payload)?;
    parts.sections.push(section)?;
    parts.elements = elements;
    Ok(9)
}
