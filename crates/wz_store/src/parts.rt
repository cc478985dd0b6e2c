//! Globals, element segments and data segments of a store (WebAssembly Core Specification, sections
//! 4.2.9 to 4.2.11).

ghost use Rattle.std.specs.Prelude.{◌≡◌, []};
ghost use Rattle.wz_store.specs.Changes.{with_content, without_items};
ghost use Rattle.wz_store.specs.Made.{new_global, new_element};

use std::marker::Model;
use wz_types::{GlobalType, RefKind, Reference, Value};

#[derive(Drop)]
pub(crate) struct GlobalInstance {
    kind: GlobalType,
    value: Value,
}

impl Model for GlobalInstance {
    ghost use Rattle.wz_store.specs.State.{Global};

    ghost Value = { Global };

    ghost view = { λ g. record { type = g.kind; content = g.value } };
}

impl GlobalInstance {
    pub(crate) fn new(kind: GlobalType, value: Value) -> GlobalInstance
        ensures { result ≡ new_global kind value }
    {
        GlobalInstance { kind, value }
    }

    pub(crate) fn kind(&self) -> GlobalType
        ensures { result ≡ self.now.type }
    {
        self.kind
    }

    #[inline]
    pub(crate) fn value(&self) -> Value
        ensures { result ≡ self.now.content }
    {
        self.value
    }

    #[inline]
    pub(crate) fn set(&mut self, value: Value)
        ensures { self.new ≡ with_content value self.old }
    {
        self.value = value;
    }
}

#[derive(Drop)]
pub(crate) struct ElementInstance {
    kind: RefKind,
    items: Vec<Reference>,
}

impl Model for ElementInstance {
    ghost use Rattle.wz_store.specs.State.{Element};

    ghost Value = { Element };

    ghost view = { λ e. record { kind = e.kind; items = e.items.items } };
}

impl ElementInstance {
    pub(crate) fn new(kind: RefKind, items: Vec<Reference>) -> ElementInstance
        ensures { result ≡ new_element kind items.items }
    {
        ElementInstance { kind, items }
    }

    pub(crate) fn kind(&self) -> RefKind
        ensures { result ≡ self.now.kind }
    {
        self.kind
    }

    pub(crate) fn items(&self) -> &[Reference]
        ensures { result.now ≡ self.now.items }
    {
        self.items.as_slice()
    }

    /// Drops the items and gives their memory back.
    pub(crate) fn empty(&mut self)
        ensures { self.new ≡ without_items self.old }
    {
        self.items = Vec::new(*self.items.allocator());
    }
}

/// Bytes of the module that the instance was made of.
#[derive(Drop)]
pub(crate) struct DataInstance<'m> {
    bytes: &'m [u8],
}

impl<'m> Model for DataInstance<'m> {
    ghost use Rattle.std.specs.Prelude.{ℕ, List};

    ghost Value = { List ℕ };

    ghost view = { λ d. d.bytes.now };
}

impl<'m> DataInstance<'m> {
    pub(crate) fn new(bytes: &'m [u8]) -> DataInstance<'m>
        ensures { result ≡ bytes.now }
    {
        DataInstance { bytes }
    }

    pub(crate) fn bytes(&self) -> &'m [u8]
        ensures { result.now ≡ self.now }
    {
        self.bytes
    }

    pub(crate) fn empty(&mut self)
        ensures { self.new ≡ [] }
    {
        self.bytes = &[];
    }
}
