//! Active segments are copied, and emptied like declarative ones (Core Specification, section
//! 4.5.4).

ghost use Rattle.std.specs.Prelude.{◌≡◌, ◌-◌, ◌^◌, ◌<◌, length, OnOk, IfErr};
ghost use Rattle.wz_module.specs.Views.{init_of};
ghost use Rattle.wz_store.specs.Changes.{EmptyElement, EmptyData, applied};
ghost use Rattle.wz_init.specs.Instances.{Instance};
ghost use Rattle.wz_init.specs.Plain.{table_kinds, element_kinds, IsElemReady, AreElemsReady};
ghost use Rattle.wz_init.specs.Plain.{IsDataReady, AreDatasReady, IsUnfit};
ghost use Rattle.wz_init.specs.Plain.{plain_element_run, plain_elements_run};
ghost use Rattle.wz_init.specs.Plain.{plain_data_run, plain_datas_run};

use crate::constants::constant_number;
use crate::faults::StartFault;
use wz_bulk::{Bulk, memory_init, table_init};
use wz_linear::Linear;
use wz_module::{DataMode, DataSegment, Elem, ElemItems, ElemMode};
use wz_store::Store;

fn drop_element<'m, M: Linear>(store: &mut Store<'m, M>, index: u32)
    ensures { store.new ≡ applied (EmptyElement index) store.old }
{
    let _found = store.empty_element(index);
}

fn drop_data<'m, M: Linear>(store: &mut Store<'m, M>, index: u32)
    ensures { store.new ≡ applied (EmptyData index) store.old }
{
    let _found = store.empty_segment(index);
}

fn item_count(items: &ElemItems) -> usize
    ensures { result ≡ length (init_of items.now) }
{
    match items {
        ElemItems::Funcs(functions) => functions.len(),
        ElemItems::Exprs(bodies) => bodies.len(),
    }
}

fn copy_element<'m, M: Linear>(
    store: &mut Store<'m, M>,
    index: u32,
    element: &Elem,
) -> Result<(), StartFault>
    requires { IsElemReady (table_kinds store.old) (element_kinds store.old) index element.now }
    ensures copied { let count = length (init_of element.now.items) in
        OnOk result (plain_element_run index count element.now.mode store.old ≡
        Instance store.new) }
    ensures unfit { let count = length (init_of element.now.items) in
        IfErr result (λ fault.
        IsUnfit (plain_element_run index count element.now.mode store.old) fault) }
{
    match &element.mode {
        ElemMode::Passive => Ok(()),
        ElemMode::Declarative => {
            drop_element(store, index);
            Ok(())
        }
        ElemMode::Active { table, offset } => {
            let to = constant_number(offset);
            let len = item_count(&element.items) as u32;
            match table_init(store, index, *table, to, 0, len) {
                Bulk::Did => {
                    drop_element(store, index);
                    Ok(())
                }
                Bulk::Trap(_) => Err(StartFault::ElementOutOfBounds { index }),
                Bulk::Stuck => unreachable!(),
            }
        }
    }
}

/// Goes through the element segments in their order, up to the first active one that doesn't fit.
pub(crate) fn copy_elements<'m, M: Linear>(
    store: &mut Store<'m, M>,
    elements: &[Elem],
) -> Result<(), StartFault>
    requires few { length elements.now < 2 ^ 32 - 1 }
    requires ready { AreElemsReady store.old elements.now }
    ensures copied { OnOk result
        (plain_elements_run 0 elements.now store.old ≡ Instance store.new) }
    ensures unfit { IfErr result (λ fault.
        IsUnfit (plain_elements_run 0 elements.now store.old) fault) }
{
    for (index, element) in elements.iter().enumerate() {
        copy_element(store, index as u32, element)?;
    }
    Ok(())
}

fn copy_data<'m, M: Linear>(
    store: &mut Store<'m, M>,
    index: u32,
    segment: &DataSegment<'_>,
) -> Result<(), StartFault>
    requires { IsDataReady (length store.old.memories) (length store.old.datas) index segment.now }
    ensures copied { let count = length segment.now.bytes.now in
        OnOk result (plain_data_run index count segment.now.mode store.old ≡
        Instance store.new) }
    ensures unfit { let count = length segment.now.bytes.now in
        IfErr result (λ fault.
        IsUnfit (plain_data_run index count segment.now.mode store.old) fault) }
{
    match &segment.mode {
        DataMode::Passive => Ok(()),
        DataMode::Active { memory, offset } => {
            let to = constant_number(offset);
            let len = segment.bytes.len() as u32;
            match memory_init(store, index, *memory, to, 0, len)? {
                Bulk::Did => {
                    drop_data(store, index);
                    Ok(())
                }
                Bulk::Trap(_) => Err(StartFault::DataOutOfBounds { index }),
                Bulk::Stuck => unreachable!(),
            }
        }
    }
}

/// Goes through the data segments in their order, up to the first active one that doesn't fit.
pub(crate) fn copy_datas<'m, M: Linear>(
    store: &mut Store<'m, M>,
    segments: &[DataSegment<'_>],
) -> Result<(), StartFault>
    requires few { length segments.now < 2 ^ 32 - 1 }
    requires ready { AreDatasReady store.old segments.now }
    ensures copied { OnOk result (plain_datas_run 0 segments.now store.old ≡ Instance store.new) }
    ensures unfit { IfErr result (λ fault.
        IsUnfit (plain_datas_run 0 segments.now store.old) fault) }
{
    for (index, segment) in segments.iter().enumerate() {
        copy_data(store, index as u32, segment)?;
    }
    Ok(())
}
