// What every replica holds, whatever happened to it.
ghost use Rattle.xds_resource.specs.Resources.{IsWritable};
ghost use Rattle.xds_catalogue.specs.Holdings.{IsCatalogue};
ghost use Rattle.xds_trace.specs.Bases.{AreTellable, HoldsTellable};

use xds_catalogue::Catalogue;
use xds_core::Core;
use xds_resource::{ResourceType, Write};

/// What a replica holds are writes that could be read. It looks at each, and takes no memory.
pub(crate) fn what_is_held_could_be_read(core: &Core)
    ensures { HoldsTellable core.now.store }
{
    let held = core.catalogues();
    each_is_tellable(held.cluster.catalogue());
    each_is_tellable(held.endpoint.catalogue());
    each_is_tellable(held.listener.catalogue());
    each_is_tellable(held.route.catalogue());
    each_is_tellable(held.secret.catalogue());
}

// The same of what one type's catalogue holds.
fn each_is_tellable<T: ResourceType>(catalogue: &Catalogue<T>)
    ensures named { IsCatalogue catalogue.now.entries }
    ensures each { AreTellable T.TYPE catalogue.now.entries }
{
    let _ = catalogue.get("");
    let mut last = 0;
    while let Some((number, write)) = catalogue.next_change(last) {
        could_be_read(write);
        last = number;
    }
}

// A write that is held could be read.
fn could_be_read<T: ResourceType>(write: &Write<T>)
    ensures { IsWritable T.TYPE write.now }
{
    drop(write.shared_body());
}
