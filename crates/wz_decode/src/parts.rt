//! The sections of a module, one after the other, with what they hold (Core Specification 2.0,
//! section 5.5.16).

ghost use Rattle.std.specs.Prelude.{◌≡◌, ◌≢◌, ◌<◌, ◌≤◌, ◌-◌, ◌^◌, ◌++◌, ◌∷◌, [], ℕ, List, length, IfOk, OnOk, IsErrOf};
ghost use Rattle.std.specs.Option.{option_map};
ghost use Rattle.wz_module.specs.Views.{section_of, module_with};
ghost use Rattle.wz_decode_sections.specs.declared.fault.SectionFault.TheVariants.{Bad};
ghost use Rattle.wz_decode.specs.Header.{header};
ghost use Rattle.wz_decode.specs.SectionForm.{section_at};
ghost use Rattle.wz_decode.specs.Contents.{IsInGrammar, IsBadSection};
ghost use Rattle.wz_decode.specs.Front.{HasFront, MayFollow, IsWhole};
ghost use Rattle.wz_decode.specs.declared.fault.DecodeFault.TheVariants.{NotWasm, BadSection, BadCounts};

use crate::code::{take_bodies, take_data_count, take_datas};
use crate::declarations::{take_functions, take_imports, take_memories, take_tables, take_types};
use crate::definitions::{take_elements, take_exports, take_globals, take_start};
use crate::fault::DecodeFault;
use std::alloc::Global;
use wz_bytes::Cursor;
use wz_decode_sections::SectionFault;
use wz_module::{ModuleParts, Section};

/// Takes one section, whatever it holds.
pub(crate) fn take_section<'a>(cursor: &mut Cursor<'a>) -> Option<Section<'a>>
    ensures { option_map
        (λ s. (section_of s, cursor.new.left)) result ≡ section_at cursor.old.left }
{
    let id = cursor.byte()?;
    let size = cursor.number()?;
    let payload = cursor.take(size as usize)?;
    Some(Section { id, payload })
}

/// Takes a custom section, of which only the name is looked at.
fn take_custom<'a>(
    parts: &mut ModuleParts<'a>,
    last: u8,
    section: Section<'a>,
) -> Result<u8, SectionFault>
    requires front { HasFront (module_with parts.old) last }
    requires id { section.id ≡ 0 }
    ensures ok { IfOk result (λ now. HasFront (module_with parts.new) now) }
    ensures sections { OnOk result
        (parts.new.sections.items ≡ parts.old.sections.items ++ section.entry ∷ []) }
    ensures contents { OnOk result (IsInGrammar (section_of section.entry)) }
    ensures bad { IsErrOf result Bad → MayFollow last (section_of section.entry) → ⊥ }
{
    let mut contents = Cursor::new(section.payload);
    let Some(_name) = contents.name() else {
        return Err(SectionFault::Bad);
    };
    parts.sections.push(section)?;
    Ok(last)
}

/// Takes one section, and gives its rank, or that of the last one before a custom section.
fn take_part<'a>(
    alloc: Global,
    parts: &mut ModuleParts<'a>,
    last: u8,
    section: Section<'a>,
) -> Result<u8, SectionFault>
    requires front { HasFront (module_with parts.old) last }
    requires small { length section.payload.now < 2 ^ 32 - 1 }
    ensures ok { IfOk result (λ now. HasFront (module_with parts.new) now) }
    ensures sections { OnOk result
        (parts.new.sections.items ≡ parts.old.sections.items ++ section.entry ∷ []) }
    ensures contents { OnOk result (IsInGrammar (section_of section.entry)) }
    ensures bad { IsErrOf result Bad → MayFollow last (section_of section.entry) → ⊥ }
{
    match section.id {
        0 => take_custom(parts, last, section),
        1 => take_types(alloc, parts, last, section),
        2 => take_imports(alloc, parts, last, section),
        3 => take_functions(alloc, parts, last, section),
        4 => take_tables(alloc, parts, last, section),
        5 => take_memories(alloc, parts, last, section),
        6 => take_globals(alloc, parts, last, section),
        7 => take_exports(alloc, parts, last, section),
        8 => take_start(parts, last, section),
        9 => take_elements(alloc, parts, last, section),
        10 => take_bodies(alloc, parts, last, section),
        11 => take_datas(alloc, parts, last, section),
        12 => take_data_count(parts, last, section),
        _ => Err(SectionFault::Bad),
    }
}

/// No sections yet.
fn no_parts<'a>(alloc: Global) -> ModuleParts<'a>
    ensures front { HasFront (module_with result) 0 }
    ensures sections { result.sections.items ≡ [] }
{
    ModuleParts {
        sections: Vec::new(alloc),
        types: Vec::new(alloc),
        imports: Vec::new(alloc),
        functions: Vec::new(alloc),
        tables: Vec::new(alloc),
        memories: Vec::new(alloc),
        globals: Vec::new(alloc),
        exports: Vec::new(alloc),
        start: None,
        elements: Vec::new(alloc),
        data_count: None,
        bodies: Vec::new(alloc),
        datas: Vec::new(alloc),
    }
}

/// Reads the header and all sections, up to the first that is bad.
pub(crate) fn read_parts(alloc: Global, bytes: &[u8]) -> Result<ModuleParts<'_>, DecodeFault>
    requires { length bytes.now < 2 ^ 32 - 1 }
    ensures found { IfOk result (λ parts. IsWhole bytes.now (module_with parts)) }
    ensures not_wasm { IsErrOf result NotWasm → (rest : List ℕ) → bytes.now ≢ header ++ rest }
    ensures bad { (at : ℕ) → IsErrOf result (BadSection at) → IsBadSection bytes.now at }
    ensures counts { IsErrOf result BadCounts → ⊥ }
{
    let [0x00, 0x61, 0x73, 0x6D, 0x01, 0x00, 0x00, 0x00, rest @ ..] = bytes else {
        return Err(DecodeFault::NotWasm);
    };
    let mut parts = no_parts(alloc);
    let mut last = 0;
    let mut cursor = Cursor::new(rest);
    'sections: while !cursor.left().is_empty() {
        let at = parts.sections.len() as u32;
        let Some(section) = take_section(&mut cursor) else {
            return Err(DecodeFault::BadSection { at });
        };
        match take_part(alloc, &mut parts, last, section) {
            Ok(rank) => last = rank,
            Err(SectionFault::Bad) => return Err(DecodeFault::BadSection { at }),
            Err(SectionFault::NoMemory) => return Err(DecodeFault::NoMemory),
        }
    }
    Ok(parts)
}
