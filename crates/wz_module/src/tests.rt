//! A module made by hand lends the parts that it was made of, and the functions that items name
//! are gathered.

use crate::{
    Elem, ElemItems, ElemMode, ExportTarget, Module, ModuleParts, add_exported_function,
    add_referred_in_bodies, add_referred_in_segments,
};
use std::alloc::{AllocError, Global};
use std::collections::BTreeSet;
use std::test::Fail;
use wz_code::{Body, BodyBuilder, Instr};
use wz_types::{Limits, MemType, RefKind};

#[test]
fn parts_are_lent(rt: HostRuntime) -> Result<(), Fail> {
    let alloc = rt.alloc();
    let limits = Limits { min: 1, max: None };
    let module = Module::from_parts(ModuleParts {
        sections: Vec::new(alloc),
        types: Vec::new(alloc),
        imports: Vec::new(alloc),
        functions: Vec::from_slice(alloc, &[7, 5])?,
        tables: Vec::new(alloc),
        memories: Vec::from_slice(alloc, &[MemType { limits }])?,
        globals: Vec::new(alloc),
        exports: Vec::new(alloc),
        start: Some(1),
        elements: Vec::new(alloc),
        data_count: Some(3),
        bodies: Vec::new(alloc),
        datas: Vec::new(alloc),
    });
    assert!(rt; module.functions() == [7, 5].as_slice());
    assert!(rt; module.memories() == [MemType { limits }].as_slice());
    assert!(rt; module.start() == Some(1) && module.data_count() == Some(3));
    assert!(rt; module.sections().is_empty() && module.exports().is_empty());
    Ok(())
}

/// A body that names a function.
fn body_naming(alloc: Global, function: u32) -> Result<Body, AllocError> {
    let mut builder = BodyBuilder::new(alloc);
    builder.add_instr(0, Instr::RefFunc(function))?;
    Ok(builder.finish())
}

/// A segment whose offset names function 6, and whose references are to 2 and 9.
fn active(alloc: Global) -> Result<Elem, AllocError> {
    Ok(Elem {
        mode: ElemMode::Active {
            table: 4,
            offset: body_naming(alloc, 6)?,
        },
        kind: RefKind::Func,
        items: ElemItems::Funcs([9, 2].to_vec(alloc)?),
    })
}

/// A segment with a reference to function 5.
fn passive(alloc: Global) -> Result<Elem, AllocError> {
    Ok(Elem {
        mode: ElemMode::Passive,
        kind: RefKind::Func,
        items: ElemItems::Exprs(vec![in alloc; body_naming(alloc, 5)?]?),
    })
}

/// The functions of two segments, an export and a body.
fn gathered(alloc: Global) -> Result<BTreeSet<u32>, AllocError> {
    let mut functions = BTreeSet::new(alloc);
    let segments = vec![in alloc; active(alloc)?, passive(alloc)?]?;
    add_referred_in_segments(&segments, &mut functions)?;
    add_exported_function(ExportTarget::Func(7), &mut functions)?;
    add_referred_in_bodies(&vec![in alloc; body_naming(alloc, 3)?]?, &mut functions)?;
    Ok(functions)
}

#[test]
fn functions_are_gathered(rt: HostRuntime) -> Result<(), Fail> {
    let functions = gathered(rt.alloc())?;
    assert!(rt; functions.iter().eq([2, 3, 5, 6, 7, 9].iter()));
    Ok(())
}
