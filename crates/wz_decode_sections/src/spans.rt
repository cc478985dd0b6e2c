//! Where the segments of an element payload stand in it.

ghost use Rattle.std.specs.Prelude.{◌≡◌, ◌≤◌, ◌<◌, ◌-◌, ◌^◌, [], List, None, length, IfOk, IsErrOf};
ghost use Rattle.wz_bytes.specs.declared.vectors.ItemFault.TheVariants as item;
ghost use Rattle.wz_bytes.specs.Vectors.{ItemsRead, VectorRead, ItemsBad, NotAll};
ghost use Rattle.wz_module.specs.Elements.{Elem as ElemTree};
ghost use Rattle.wz_decode_code.specs.Laws.{SpellsNone};
ghost use Rattle.wz_decode_sections.specs.ElementSection.{IsElementSection, elem_at};
ghost use Rattle.wz_decode_sections.specs.Spans.{HasSpans, SpanRead};
ghost use Rattle.wz_decode_sections.specs.declared.fault.SectionFault.TheVariants.{Bad};

use crate::fault::SectionFault;
use crate::segments::take_elem_behind;
use std::alloc::Global;
use wz_bytes::{Cursor, ItemFault};
use wz_module::Span;

/// The segments' places in the payload of an element section (Core Specification 2.0, section
/// 5.5.12), with the lengths of their flags and of themselves. `Bad` comes just where
/// `read_elements` answers it.
pub fn element_spans(alloc: Global, payload: &[u8]) -> Result<Vec<Span>, SectionFault>
    requires { length payload.now < 2 ^ 32 - 1 }
    ensures found { IfOk result (λ r. (es : List ElemTree) × HasSpans payload.now es r.items) }
    ensures bad { IsErrOf result Bad → SpellsNone IsElementSection payload.now }
{
    match read_spans(alloc, payload) {
        Ok(spans) => Ok(spans),
        Err(fault) => Err(SectionFault::from(fault)),
    }
}

/// The spans of all segments of the payload.
fn read_spans(alloc: Global, payload: &[u8]) -> Result<Vec<Span>, ItemFault>
    requires { length payload.now < 2 ^ 32 - 1 }
    ensures ok { let reads = SpanRead (length payload.now) in
        IfOk result (λ r. VectorRead reads payload.now r.items []) }
    ensures bad { let reads = SpanRead (length payload.now) in
        IsErrOf result item.Bad → NotAll reads (λ b. elem_at b ≡ None) payload.now }
{
    let mut cursor = Cursor::new(payload);
    let Some(count) = cursor.number() else {
        return Err(ItemFault::Bad);
    };
    let spans = take_spans(alloc, payload.len(), count, &mut cursor)?;
    if !cursor.left().is_empty() {
        return Err(ItemFault::Bad);
    }
    Ok(spans)
}

/// Takes so many segments, one behind the other, of so many bytes in all.
fn take_spans(
    alloc: Global,
    total: usize,
    count: u32,
    cursor: &mut Cursor<'_>,
) -> Result<Vec<Span>, ItemFault>
    requires within { length cursor.old.left ≤ total }
    requires small { total < 2 ^ 32 - 1 }
    ensures length { IfOk result (λ r. length r.items ≡ count) }
    ensures ok { let reads = SpanRead total in
        IfOk result (λ r. ItemsRead reads cursor.old.left r.items cursor.new.left) }
    ensures bad { let reads = SpanRead total in
        IsErrOf result item.Bad → ItemsBad reads (λ b. elem_at b ≡ None) count cursor.old.left }
{
    let mut spans = Vec::new(alloc);
    for _ in 0..count {
        let span = take_span(alloc, total, cursor)?;
        spans.push(span)?;
    }
    Ok(spans)
}

/// Takes one segment.
fn take_span(alloc: Global, total: usize, cursor: &mut Cursor<'_>) -> Result<Span, ItemFault>
    requires within { length cursor.old.left ≤ total }
    requires small { total < 2 ^ 32 - 1 }
    ensures ok { IfOk result (λ s. SpanRead total cursor.old.left s cursor.new.left) }
    ensures bad { IsErrOf result item.Bad → elem_at cursor.old.left ≡ None }
{
    let left = cursor.left().len();
    let Some(flag) = cursor.number() else {
        return Err(ItemFault::Bad);
    };
    let behind = cursor.left().len();
    let _elem = take_elem_behind(alloc, flag, cursor)?;
    let end = cursor.left().len();
    Ok(Span {
        at: (total - left) as u32,
        head: (left - behind) as u32,
        len: (left - end) as u32,
    })
}
