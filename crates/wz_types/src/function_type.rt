//! The types of functions (Core Specification 2.0, section 2.3.6).

ghost use Rattle.std.specs.Prelude.{◌≡◌, IfOk};

use crate::types::ValType;
use std::alloc::{AllocError, Global};
use std::marker::Model;

/// The types of a function's parameters and results, each in the order of pushing.
#[derive(Drop)]
pub struct FuncType {
    params: Vec<ValType>,
    results: Vec<ValType>,
}

impl Model for FuncType {
    ghost use Rattle.wz_types.specs.FunctionType.{FunctionType};

    ghost Value = { FunctionType };

    ghost view = { λ f. record { params = f.params.items; results = f.results.items } };
}

impl FuncType {
    /// Copies both lists.
    pub fn new(
        alloc: Global,
        params: &[ValType],
        results: &[ValType],
    ) -> Result<FuncType, AllocError>
        ensures params { IfOk result (λ f. f.params ≡ params.now) }
        ensures results { IfOk result (λ f. f.results ≡ results.now) }
    {
        Ok(FuncType {
            params: Vec::from_slice(alloc, params)?,
            results: Vec::from_slice(alloc, results)?,
        })
    }

    #[inline]
    pub fn params(&self) -> &[ValType]
        ensures { result.now ≡ self.now.params }
    {
        self.params.as_slice()
    }

    #[inline]
    pub fn results(&self) -> &[ValType]
        ensures { result.now ≡ self.now.results }
    {
        self.results.as_slice()
    }
}
