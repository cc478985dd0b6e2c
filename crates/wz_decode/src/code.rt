//! The data count, code and data. A section is taken where it is in order and its contents are in
//! the grammar.

ghost use Rattle.std.specs.Prelude.{◌≡◌, ◌<◌, ◌≤◌, ◌-◌, ◌^◌, ◌++◌, ◌∷◌, [], length, IfOk, OnOk, IsErrOf};
ghost use Rattle.wz_module.specs.Views.{section_of, module_with};
ghost use Rattle.wz_decode_sections.specs.declared.fault.SectionFault.TheVariants.{Bad};
ghost use Rattle.wz_decode.specs.Contents.{IsInGrammar};
ghost use Rattle.wz_decode.specs.Front.{HasFront, MayFollow};

use std::alloc::Global;
use wz_decode_sections::{SectionFault, read_code, read_data, read_data_count};
use wz_module::{ModuleParts, Section};

/// Takes the data count section.
pub(crate) fn take_data_count<'a>(
    parts: &mut ModuleParts<'a>,
    last: u8,
    section: Section<'a>,
) -> Result<u8, SectionFault>
    requires front { HasFront (module_with parts.old) last }
    requires small { length section.payload.now < 2 ^ 32 - 1 }
    requires id { section.id ≡ 12 }
    ensures ok { IfOk result (λ now. HasFront (module_with parts.new) now) }
    ensures sections { OnOk result
        (parts.new.sections.items ≡ parts.old.sections.items ++ section.entry ∷ []) }
    ensures contents { OnOk result (IsInGrammar (section_of section.entry)) }
    ensures bad { IsErrOf result Bad → MayFollow last (section_of section.entry) → ⊥ }
{
    if last >= 10 {
        return Err(SectionFault::Bad);
    }
    let data_count = read_data_count(section.payload)?;
    parts.sections.push(section)?;
    parts.data_count = Some(data_count);
    Ok(10)
}

/// Takes the code section.
pub(crate) fn take_bodies<'a>(
    alloc: Global,
    parts: &mut ModuleParts<'a>,
    last: u8,
    section: Section<'a>,
) -> Result<u8, SectionFault>
    requires front { HasFront (module_with parts.old) last }
    requires small { length section.payload.now < 2 ^ 32 - 1 }
    requires id { section.id ≡ 10 }
    ensures ok { IfOk result (λ now. HasFront (module_with parts.new) now) }
    ensures sections { OnOk result
        (parts.new.sections.items ≡ parts.old.sections.items ++ section.entry ∷ []) }
    ensures contents { OnOk result (IsInGrammar (section_of section.entry)) }
    ensures bad { IsErrOf result Bad → MayFollow last (section_of section.entry) → ⊥ }
{
    if last >= 11 {
        return Err(SectionFault::Bad);
    }
    let bodies = read_code(alloc, section.payload)?;
    parts.sections.push(section)?;
    parts.bodies = bodies;
    Ok(11)
}

/// Takes the data section.
pub(crate) fn take_datas<'a>(
    alloc: Global,
    parts: &mut ModuleParts<'a>,
    last: u8,
    section: Section<'a>,
) -> Result<u8, SectionFault>
    requires front { HasFront (module_with parts.old) last }
    requires small { length section.payload.now < 2 ^ 32 - 1 }
    requires id { section.id ≡ 11 }
    ensures ok { IfOk result (λ now. HasFront (module_with parts.new) now) }
    ensures sections { OnOk result
        (parts.new.sections.items ≡ parts.old.sections.items ++ section.entry ∷ []) }
    ensures contents { OnOk result (IsInGrammar (section_of section.entry)) }
    ensures bad { IsErrOf result Bad → MayFollow last (section_of section.entry) → ⊥ }
{
    if last >= 12 {
        return Err(SectionFault::Bad);
    }
    match read_data(alloc, section.payload) {
        Ok(datas) => {
            parts.sections.push(section)?;
            parts.datas = datas;
            Ok(12)
        }
        Err(fault) => Err(fault),
    }
}
