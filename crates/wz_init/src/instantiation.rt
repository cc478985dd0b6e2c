//! Instantiation (Core Specification, section 4.5.4).

ghost use Rattle.std.specs.Prelude.{◌≡◌, Some, OnOk, IfOk, IfErr};
ghost use Rattle.wz_module.specs.Meaning.{module_of};
ghost use Rattle.wz_valid.specs.Validity.{IsValid};
ghost use Rattle.wz_valid.specs.Profile.{IsInProfile};
ghost use Rattle.wz_init.specs.States.{state_in};
ghost use Rattle.wz_init.specs.Functions.{stored_functions};
ghost use Rattle.wz_init.specs.Allocation.{allocated};
ghost use Rattle.wz_init.specs.Instances.{Instance};
ghost use Rattle.wz_init.specs.Instantiation.{fresh};
ghost use Rattle.wz_init.specs.Plain.{IsUnfit};

use crate::allocation::{
    add_datas, add_elements, add_globals, add_imports, add_memories, add_own, add_tables,
};
use crate::faults::StartFault;
use crate::segments::{copy_datas, copy_elements};
use std::alloc::{AllocError, Global};
use wz_linear::Linear;
use wz_module::Module;
use wz_store::Store;

/// The store of a module before any segment is copied.
fn allocate<'m, M: Linear>(
    alloc: Global,
    module: &'m Module<'m>,
) -> Result<Store<'m, M>, AllocError>
    requires valid { IsValid (module_of «module».now) }
    requires profile { IsInProfile (module_of «module».now) }
    ensures { let m = module_of «module».now in
        IfOk result (λ store. allocated m (stored_functions m) ≡ Some store) }
{
    // globals and element segments have constants, and imports are functions
    wz_valid::laws::valid_items();
    let mut store = Store::new(alloc, module.types());
    add_imports(&mut store, module.imports())?;
    add_own(&mut store, module.functions())?;
    add_globals(&mut store, module.globals())?;
    add_tables(&mut store, module.tables())?;
    add_memories(&mut store, module.memories())?;
    add_elements(alloc, &mut store, module.elements())?;
    add_datas(&mut store, module.datas())?;
    Ok(store)
}

/// Goes through the element segments, and then through the data segments.
fn copy_segments<'m, M: Linear>(
    store: &mut Store<'m, M>,
    module: &Module<'_>,
) -> Result<(), StartFault>
    requires valid { IsValid (module_of «module».now) }
    requires profile { IsInProfile (module_of «module».now) }
    requires allocated { let m = module_of «module».now in
        allocated m (stored_functions m) ≡ Some store.old }
    ensures fresh { let m = module_of «module».now in
        OnOk result (fresh m ≡ Instance (state_in m store.new)) }
    ensures unfit { IfErr result (λ fault. IsUnfit (fresh (module_of «module».now)) fault) }
{
    // the tables and memories of active segments are there, and their offsets are constants
    wz_valid::laws::valid_items();
    let segments = module.datas();
    match copy_elements(store, module.elements()) {
        Ok(()) => copy_datas(store, segments),
        Err(fault) => Err(fault),
    }
}

/// The fresh instance of a module, as it is before the start function, or the first active segment
/// that doesn't fit into its table or memory, element segments first.
pub fn instantiate<'m, M: Linear>(
    alloc: Global,
    module: &'m Module<'m>,
) -> Result<Store<'m, M>, StartFault>
    requires valid { IsValid (module_of «module».now) }
    requires profile { IsInProfile (module_of «module».now) }
    ensures fresh { let m = module_of «module».now in
        IfOk result (λ store. fresh m ≡ Instance (state_in m store)) }
    ensures unfit { IfErr result (λ fault. IsUnfit (fresh (module_of «module».now)) fault) }
{
    let mut store = allocate(alloc, module)?;
    copy_segments(&mut store, module)?;
    Ok(store)
}
