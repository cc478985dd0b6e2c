//! Lists of values, as the arguments and results of a call.

ghost use Rattle.std.specs.Prelude.{◌≡◌, ◌≤◌, length, IfOk, IsOk};

use crate::value::Value;
use smallvec::SmallVec;
use std::alloc::{AllocError, Global};
use std::marker::Model;

/// A list of values. Up to four of them stand in the list itself and take no memory.
#[derive(Drop)]
pub struct Values {
    items: SmallVec<Value, 4>,
}

impl Model for Values {
    ghost use Rattle.std.specs.Prelude.{List};
    ghost use Rattle.wz_types.specs.declared.value.Value.{Value as TheValue};

    ghost Value = { List TheValue };

    ghost view = { λ v. v.items.items };
}

impl Values {
    /// Copies the items.
    pub fn new(alloc: Global, items: &[Value]) -> Result<Values, AllocError>
        ensures copied { IfOk result (λ v. v ≡ items.now) }
        ensures in_place { length items.now ≤ 4 → IsOk result }
    {
        Ok(Values {
            items: SmallVec::from_slice(alloc, items)?,
        })
    }

    pub fn as_slice(&self) -> &[Value]
        ensures { result.now ≡ self.now }
    {
        self.items.as_slice()
    }
}
