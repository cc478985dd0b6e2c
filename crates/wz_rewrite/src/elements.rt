//! The contents of the element section, as pieces.

ghost use Rattle.std.specs.Prelude.{◌≡◌, ◌-◌, ◌^◌, ◌<◌, ◌∷◌, [], length, Some, None, IfOk};
ghost use Rattle.wz_decode_sections.specs.ElementSection.{IsElementSection};
ghost use Rattle.wz_encode.specs.Elements.{elements_text};
ghost use Rattle.wz_rewrite.specs.Pieces.{MadePiece, keeps_elements, elements_pieces};
ghost use Rattle.wz_rewrite.specs.Sections.{renewed_elements};
ghost use Rattle.wz_rewrite.specs.Sources.{source_module, source_state, AreFound};

use crate::made::{kept_as_is, made};
use crate::pieces::Pieces;
use crate::sources::Sources;
use std::alloc::{AllocError, Global};
use wz_decode_sections::element_spans;
use wz_encode::put_elements;

/// Whether nothing was dropped and nothing must be declared anew.
fn keeps_elements(sources: &Sources<'_, '_>) -> bool
    requires { AreFound sources.now }
    ensures { result ≡ keeps_elements (source_module sources.now) (source_state sources.now) }
{
    sources.dropped.is_empty() && sources.undeclared.is_empty()
}

/// The contents of an element section that was there and changes.
fn changed_contents<'a>(
    alloc: Global,
    sources: &Sources<'_, 'a>,
    payload: &[u8],
) -> Result<Option<Pieces<'a>>, AllocError>
    requires found { AreFound sources.now }
    requires spelled { IsElementSection payload.now (source_module sources.now).elements }
    requires short { length payload.now < 2 ^ 32 - 1 }
    ensures { let m = source_module sources.now in let o = source_state sources.now in
        IfOk result (λ c. c ≡ Some (MadePiece (renewed_elements m o payload.now) ∷ [])) }
{
    // `Bad` doesn't come: the payload spells the segments
    let Ok(spans) = element_spans(alloc, payload) else {
        return Err(AllocError);
    };
    let mut bytes = Vec::new(alloc);
    let old = Some(payload);
    put_elements(
        &mut bytes,
        old,
        &spans,
        &sources.dropped,
        &sources.undeclared,
    )?;
    made(alloc, bytes)
}

/// The contents of an element section that was there: those that it has, where nothing was dropped
/// and nothing must be declared anew.
pub(crate) fn element_contents<'a>(
    alloc: Global,
    sources: &Sources<'_, 'a>,
    payload: &'a [u8],
) -> Result<Option<Pieces<'a>>, AllocError>
    requires found { AreFound sources.now }
    requires spelled { IsElementSection payload.now (source_module sources.now).elements }
    requires short { length payload.now < 2 ^ 32 - 1 }
    ensures { let m = source_module sources.now in let o = source_state sources.now in
        IfOk result (λ c. c ≡ Some (elements_pieces m o payload.now)) }
{
    if keeps_elements(sources) {
        kept_as_is(alloc, payload)
    } else {
        changed_contents(alloc, sources, payload)
    }
}

/// The contents of an element section that comes in.
pub(crate) fn new_element_contents<'a>(
    alloc: Global,
    functions: &[u32],
) -> Result<Option<Pieces<'a>>, AllocError>
    ensures { IfOk result
        (λ c. c ≡ Some (MadePiece (elements_text None [] [] functions.now) ∷ [])) }
{
    let mut bytes = Vec::new(alloc);
    put_elements(&mut bytes, None, &[], &[], functions)?;
    made(alloc, bytes)
}
