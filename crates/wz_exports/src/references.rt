//! The functions that code, segments, exports and globals name.

ghost use Rattle.std.specs.Prelude.{◌≡◌, [], map, filter, not, IfOk, OnOk};
ghost use Rattle.std.specs.List.Sorted.{IsStrictlyIncreasing};
ghost use Rattle.std.specs.List.{flat_map};
ghost use Rattle.std.specs.BTreeSet.{contains};
ghost use Rattle.std.specs.Ordering.{nat_cmp};
ghost use Rattle.wz_code.specs.References.{referred_in, AddsFunctions};
ghost use Rattle.wz_module.specs.Views.{trees_of, elem_of};
ghost use Rattle.wz_module.specs.References.{referred_in_segment, exported_function};
ghost use Rattle.wz_exports.specs.Undeclared.{value_refs};

use crate::kept::Kept;
use std::alloc::{AllocError, Global};
use std::collections::BTreeSet;
use wz_code::Body;
use wz_module::{
    Elem, add_exported_function, add_function, add_referred_in_bodies, add_referred_in_segments,
};
use wz_types::{Reference, Value};

/// The functions that were named so far.
#[derive(Drop)]
pub(crate) struct References {
    pub(crate) functions: BTreeSet<u32>,
}

impl References {
    pub(crate) fn new(alloc: Global) -> References
        ensures { result.functions.keys ≡ [] }
    {
        References {
            functions: BTreeSet::new(alloc),
        }
    }

    pub(crate) fn add_bodies(&mut self, bodies: &[Body]) -> Result<(), AllocError>
        ensures { let more = flat_map referred_in (trees_of bodies.now) in
            OnOk result (AddsFunctions self.old.functions.keys self.new.functions.keys more) }
    {
        add_referred_in_bodies(bodies, &mut self.functions)
    }

    pub(crate) fn add_segments(&mut self, segments: &[Elem]) -> Result<(), AllocError>
        ensures { let more = flat_map referred_in_segment (map elem_of segments.now) in
            OnOk result (AddsFunctions self.old.functions.keys self.new.functions.keys more) }
    {
        add_referred_in_segments(segments, &mut self.functions)
    }

    pub(crate) fn add_exports(&mut self, kept: &Kept) -> Result<(), AllocError>
        ensures { let more = flat_map (λ e. exported_function e.target) kept.now.entries in
            OnOk result (AddsFunctions self.old.functions.keys self.new.functions.keys more) }
    {
        for at in 0..kept.len() {
            if let Some((_, target)) = kept.entry(at) {
                add_exported_function(target, &mut self.functions)?;
            }
        }
        Ok(())
    }

    fn add_value(&mut self, value: Value) -> Result<(), AllocError>
        ensures { OnOk result
            (AddsFunctions self.old.functions.keys self.new.functions.keys (value_refs value)) }
    {
        if let Value::Ref(Reference::Fn(function)) = value {
            add_function(function, &mut self.functions)?;
        }
        Ok(())
    }

    pub(crate) fn add_values(&mut self, values: &[Value]) -> Result<(), AllocError>
        ensures { let more = flat_map value_refs values.now in
            OnOk result (AddsFunctions self.old.functions.keys self.new.functions.keys more) }
    {
        for value in values {
            self.add_value(*value)?;
        }
        Ok(())
    }

    /// Those that others don't have, from the lowest on.
    pub(crate) fn without(&self, alloc: Global, others: &References) -> Result<Vec<u32>, AllocError>
        ensures left { IfOk result (λ functions. functions.items ≡
            filter (λ f. not (contains nat_cmp others.now.functions f)) self.now.functions.keys) }
        ensures rises { IsStrictlyIncreasing self.now.functions.keys }
    {
        let _count = self.functions.len();
        self.functions
            .iter()
            .filter(|function| !others.functions.contains(*function))
            .copied()
            .collect(alloc)
    }
}
