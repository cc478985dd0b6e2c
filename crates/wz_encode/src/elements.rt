//! The payload of an element section written anew (Core Specification 2.0, section 5.5.12).

ghost use Rattle.std.specs.Prelude.{◌≡◌, ◌++◌, ◌+◌, ◌^◌, ◌<◌, ◌≤◌, length, take, OnOk, OnErr};
ghost use Rattle.std.specs.List.{All, flat_map};
ghost use Rattle.std.specs.List.Sorted.{IsNonDecreasing};
ghost use Rattle.std.specs.Option.{option_map};
ghost use Rattle.wz_bytes.specs.Shortest.{shortest_unsigned};
ghost use Rattle.wz_encode.specs.Vectors.{vector_text};
ghost use Rattle.wz_encode.specs.Elements.{LieWithin, covered_by, all_covered};
ghost use Rattle.wz_encode.specs.Elements.{declarative_flag, declarative_text, is_dropped};
ghost use Rattle.wz_encode.specs.Elements.{segment_text, kept_segments_text};
ghost use Rattle.wz_encode.specs.Elements.{declaration_text, declarations};
ghost use Rattle.wz_encode.specs.Elements.{elements_anew, elements_by_spans};

use crate::append::all_or_nothing;
use std::alloc::AllocError;
use wz_bytes::{Cursor, put_unsigned};
use wz_module::Span;

/// Appends the payload of an element section: the segments of the old one, which stand where the
/// spans say, those of the dropped numbers as declarative ones, and one more that declares
/// `functions`, where there are any.
pub fn put_elements(
    out: &mut Vec<u8>,
    old: Option<&[u8]>,
    spans: &[Span],
    dropped: &[u32],
    functions: &[u32],
) -> Result<(), AllocError>
    requires within { LieWithin (option_map (λ p. p.now) old) spans.now }
    requires few { length spans.now < 2 ^ 32 }
    requires rises { IsNonDecreasing dropped.now }
    ensures ok { let payload = option_map (λ p. p.now) old.entry in
        let text = elements_by_spans payload spans.now dropped.now functions.now in
        OnOk result (out.new.items ≡ out.old.items ++ text) }
    ensures err { OnErr result (out.new.items ≡ out.old.items) }
{
    let start = out.len();
    let appended = append_elements(out, old, spans, dropped, functions);
    all_or_nothing(out, start, appended)
}

fn append_elements(
    out: &mut Vec<u8>,
    old: Option<&[u8]>,
    spans: &[Span],
    dropped: &[u32],
    functions: &[u32],
) -> Result<(), AllocError>
    requires within { LieWithin (option_map (λ p. p.now) old) spans.now }
    requires few { length spans.now < 2 ^ 32 }
    requires rises { IsNonDecreasing dropped.now }
    ensures ok { let payload = option_map (λ p. p.now) old.entry in
        let text = elements_by_spans payload spans.now dropped.now functions.now in
        OnOk result (out.new.items ≡ out.old.items ++ text) }
    ensures err { OnErr result (take (length out.old.items) out.new.items ≡ out.old.items) }
{
    match old {
        None => append_anew(out, &[], &[], dropped, functions),
        Some(payload) => {
            if dropped.is_empty() && functions.is_empty() {
                return out.extend_from_slice(payload);
            }
            append_anew(out, payload, spans, dropped, functions)
        }
    }
}

/// Appends the number of the segments, and these.
fn append_anew(
    out: &mut Vec<u8>,
    payload: &[u8],
    spans: &[Span],
    dropped: &[u32],
    functions: &[u32],
) -> Result<(), AllocError>
    requires within { All (λ s. s.at + s.len ≤ length payload.now) spans.now }
    requires few { length spans.now < 2 ^ 32 }
    requires rises { IsNonDecreasing dropped.now }
    ensures ok { let text = elements_anew (all_covered payload.now spans.now)
        dropped.now functions.now in
        OnOk result (out.new.items ≡ out.old.items ++ text) }
    ensures err { OnErr result (take (length out.old.items) out.new.items ≡ out.old.items) }
{
    put_unsigned(out, spans.len() as u64 + u64::from(!functions.is_empty()))?;
    append_segments(out, payload, spans, dropped)?;
    append_declarations(out, functions)
}

/// Appends the segments, those of the dropped numbers as declarative ones.
fn append_segments(
    out: &mut Vec<u8>,
    payload: &[u8],
    spans: &[Span],
    dropped: &[u32],
) -> Result<(), AllocError>
    requires within { All (λ s. s.at + s.len ≤ length payload.now) spans.now }
    requires few { length spans.now < 2 ^ 32 }
    requires rises { IsNonDecreasing dropped.now }
    ensures ok { let text = kept_segments_text dropped.now 0 (all_covered payload.now spans.now) in
        OnOk result (out.new.items ≡ out.old.items ++ text) }
    ensures err { OnErr result (take (length out.old.items) out.new.items ≡ out.old.items) }
{
    for (number, span) in spans.iter().enumerate() {
        let segment = covered_by(payload, *span);
        append_segment(out, segment, is_dropped(dropped, number as u32))?;
    }
    Ok(())
}

/// Appends a segment, as a declarative one if it was dropped.
fn append_segment(out: &mut Vec<u8>, segment: &[u8], dropped: bool) -> Result<(), AllocError>
    ensures ok { OnOk result (out.new.items ≡ out.old.items ++ segment_text dropped segment.now) }
    ensures err { OnErr result (take (length out.old.items) out.new.items ≡ out.old.items) }
{
    if dropped {
        append_declarative(out, segment)
    } else {
        out.extend_from_slice(segment)
    }
}

/// Appends a passive segment with the flag of a declarative one.
fn append_declarative(out: &mut Vec<u8>, segment: &[u8]) -> Result<(), AllocError>
    ensures ok { OnOk result (out.new.items ≡ out.old.items ++ declarative_text segment.now) }
    ensures err { OnErr result (take (length out.old.items) out.new.items ≡ out.old.items) }
{
    let mut cursor = Cursor::new(segment);
    let Some(flag) = cursor.number() else {
        return Ok(());
    };
    out.push(declarative_flag(flag))?;
    out.extend_from_slice(cursor.left())
}

fn declarative_flag(passive: u32) -> u8
    ensures { result ≡ declarative_flag passive }
{
    if passive == 5 { 0x07 } else { 0x03 }
}

/// The bytes that a span covers.
fn covered_by(payload: &[u8], span: Span) -> &[u8]
    requires { span.at + span.len ≤ length payload.now }
    ensures { result.now ≡ covered_by payload.now span }
{
    let at = span.at as usize;
    &payload[at..at + span.len as usize]
}

fn is_dropped(dropped: &[u32], number: u32) -> bool
    requires { IsNonDecreasing dropped.now }
    ensures { result ≡ is_dropped dropped.now number }
{
    dropped.binary_search(&number).is_ok()
}

/// Appends a segment that declares the functions, where there are any.
fn append_declarations(out: &mut Vec<u8>, functions: &[u32]) -> Result<(), AllocError>
    ensures ok { let text = flat_map declaration_text (declarations functions.now) in
        OnOk result (out.new.items ≡ out.old.items ++ text) }
    ensures err { OnErr result (take (length out.old.items) out.new.items ≡ out.old.items) }
{
    if functions.is_empty() {
        return Ok(());
    }
    out.extend_from_slice(&[0x03, 0x00])?;
    append_indices(out, functions)
}

fn append_indices(out: &mut Vec<u8>, indices: &[u32]) -> Result<(), AllocError>
    ensures ok { let text = vector_text shortest_unsigned indices.now in
        OnOk result (out.new.items ≡ out.old.items ++ text) }
    ensures err { OnErr result (take (length out.old.items) out.new.items ≡ out.old.items) }
{
    put_unsigned(out, indices.len() as u64)?;
    for index in indices {
        put_unsigned(out, u64::from(*index))?;
    }
    Ok(())
}
