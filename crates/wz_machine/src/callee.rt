//! The function that is called (Core Specification 2.0, sections 4.2.6 and 4.5.5).

ghost use Rattle.std.specs.Prelude.{◌≡◌};
ghost use Rattle.std.specs.Option.{option_map};
ghost use Rattle.wz_machine.specs.State.{callable_at, state_of};

use wz_code::Body;
use wz_linear::Linear;
use wz_store::{Function, Store};
use wz_types::{FuncType, ValType, Value};

/// A function whose type and body are there.
#[derive(Clone, Copy)]
pub(crate) struct Callee<'m> {
    pub kind: &'m FuncType,
    pub code: CalleeCode<'m>,
}

/// What it does: its own body, or what the host does at the import of this number.
#[derive(Clone, Copy)]
pub(crate) enum CalleeCode<'m> {
    Own(&'m Body),
    Import(u32),
}

ghost use Rattle.wz_machine.specs.Callees.{callable_in};

/// The function of this number; None where there is none, or where its type or its body isn't
/// there.
#[inline(always)]
pub(crate) fn callee_at<'m, M: Linear>(
    bodies: &'m [Body],
    store: &Store<'m, M>,
    index: u32,
) -> Option<Callee<'m>>
    ensures { option_map (λ callee. callable_in callee) result ≡ callable_at store.now.types
        (state_of bodies.now store.now).functions index }
{
    let (signature, code) = match store.function(index)? {
        Function::Own { signature, body } => {
            (signature, CalleeCode::Own(bodies.get(body as usize)?))
        }
        Function::Import { signature, import } => (signature, CalleeCode::Import(import)),
    };
    let kind = store.types().get(signature as usize)?;
    Some(Callee { kind, code })
}

ghost use Rattle.wz_types.specs.Fits.{all_fit as fits_all};

/// Whether there are as many values as types, and each fits its type, in an instance with so many
/// functions and types.
pub(crate) fn all_fit(values: &[Value], kinds: &[ValType], functions: u32, types: u32) -> bool
    ensures { result ≡ fits_all values.now kinds.now functions types }
{
    let mut values = values;
    let mut kinds = kinds;
    while let [value, more @ ..] = values {
        let [kind, others @ ..] = kinds else {
            return false;
        };
        if !value.fits(*kind, functions, types) {
            return false;
        }
        values = more;
        kinds = others;
    }
    kinds.is_empty()
}
