//! Lists that are copied, and values beside their types.

use crate::function_type::FuncType;
use crate::text::Text;
use crate::types::{RefKind, ValType};
use crate::value::{Reference, Sort, Value};
use crate::values::Values;
use std::test::Fail;

#[test]
fn lists_are_those_that_were_copied(rt: HostRuntime) -> Result<(), Fail> {
    let alloc = rt.alloc();
    let items = [
        Value::I32(1),
        Value::I64(2),
        Value::F32(3),
        Value::F64(4),
        Value::Ref(Reference::Null(RefKind::Extern)),
    ];
    let few = Values::new(alloc, &items[..4])?;
    assert!(rt; few.as_slice() == &items[..4]);
    let many = Values::new(alloc, &items)?;
    assert!(rt; many.as_slice() == items.as_slice());
    let kind = FuncType::new(alloc, &[ValType::I32, ValType::F64], &[ValType::FuncRef])?;
    assert!(rt; kind.params() == [ValType::I32, ValType::F64].as_slice());
    assert!(rt; kind.results() == [ValType::FuncRef].as_slice());
    let text = Text::new(alloc, "wizer.initialize")?;
    assert!(rt; text.as_str() == "wizer.initialize");
    Ok(())
}

// In an instance with three functions and two types.
#[test]
fn values_fit_their_types(rt: HostRuntime) {
    let foreign = |sort| Value::Ref(Reference::Foreign { id: 9, sort });
    let rows = [
        (Value::I32(7), ValType::I32, true),
        (Value::I32(7), ValType::F32, false),
        (Value::F64(0), ValType::F64, true),
        (
            Value::Ref(Reference::Null(RefKind::Func)),
            ValType::FuncRef,
            true,
        ),
        (
            Value::Ref(Reference::Null(RefKind::Func)),
            ValType::ExternRef,
            false,
        ),
        (Value::Ref(Reference::Fn(2)), ValType::FuncRef, true),
        (Value::Ref(Reference::Fn(3)), ValType::FuncRef, false),
        (foreign(Sort::Extern), ValType::ExternRef, true),
        (foreign(Sort::Func(1)), ValType::FuncRef, true),
        (foreign(Sort::Func(2)), ValType::FuncRef, false),
        (foreign(Sort::OtherFunc), ValType::FuncRef, true),
        (foreign(Sort::OtherFunc), ValType::ExternRef, false),
    ];
    for (value, kind, fits) in rows {
        assert_eq!(rt; value.fits(kind, 3, 2), fits, "{value:?} beside {kind:?}");
    }
    assert!(rt; Value::default() == Value::I32(0));
    assert!(rt; ValType::from(RefKind::Extern) == ValType::ExternRef);
}
