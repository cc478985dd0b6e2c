//! What is recorded of a state.

ghost use Rattle.std.specs.Prelude.{◌≡◌};

use crate::segment::ChosenSegment;
use std::marker::Model;
use wz_types::Value;

/// What is recorded of a state. Contracts see it as the record of its lists.
#[derive(Drop)]
pub struct Recorded {
    pub(crate) globals: Vec<Value>,
    pub(crate) pages: Vec<u32>,
    pub(crate) segments: Vec<ChosenSegment>,
    pub(crate) empty_elements: Vec<bool>,
    pub(crate) empty_data: Vec<bool>,
}

impl Model for Recorded {
    ghost use Rattle.wz_snapshot.specs.Recorded.{RecordedState};

    ghost Value = { RecordedState };

    ghost view = { λ r. record {
      globals = r.globals.items;
      pages = r.pages.items;
      segments = r.segments.items;
      empty_elements = r.empty_elements.items;
      empty_data = r.empty_data.items;
    } };
}

impl Recorded {
    /// The globals' values.
    pub fn globals(&self) -> &[Value]
        ensures { result.now ≡ self.now.globals }
    {
        self.globals.as_slice()
    }

    /// The memories' sizes in pages.
    pub fn pages(&self) -> &[u32]
        ensures { result.now ≡ self.now.pages }
    {
        self.pages.as_slice()
    }

    /// The chosen data segments, by memory and then by address.
    pub fn segments(&self) -> &[ChosenSegment]
        ensures { result.now ≡ self.now.segments }
    {
        self.segments.as_slice()
    }

    /// Of each element segment, whether it is empty.
    pub fn empty_elements(&self) -> &[bool]
        ensures { result.now ≡ self.now.empty_elements }
    {
        self.empty_elements.as_slice()
    }

    /// Of each data segment, whether it is empty.
    pub fn empty_data(&self) -> &[bool]
        ensures { result.now ≡ self.now.empty_data }
    {
        self.empty_data.as_slice()
    }
}
