// What a client holds of a name.
ghost use Rattle.std.specs.Prelude.{◌≡◌, IfOk, IfErr};
ghost use Rattle.xds_resource.specs.declared.refusal.Refusal.TheVariants.{OutOfMemory};

use std::alloc::Global;
use std::marker::Model;
use std::sync::ArcStr;
use xds_resource::Refusal;

/// The resource that a client holds of a name. Its texts are shared by all copies.
pub struct Holding {
    version: ArcStr<Global>,
    body: ArcStr<Global>,
}

// Written out: docs/PROVING.md, "Drops".
impl Drop for Holding {
    fn drop(self) {
        let Holding {
            version: _,
            body: _,
        } = self;
    }
}

impl Model for Holding {
    ghost use Rattle.std.specs.Arc.{arc_str_bytes};
    ghost use Rattle.xds_cache.specs.Shelves as shelves;
    ghost use Rattle.xds_cache.specs.Shelves.{holding_code};

    ghost Value = { shelves.Holding };

    ghost coded = { holding_code };

    ghost view = { λ h. record { version = arc_str_bytes h.version; body = arc_str_bytes h.body } };
}

impl Holding {
    pub fn new(alloc: Global, version: &str, body: &str) -> Result<Holding, Refusal>
        ensures ok { IfOk result (λ h. h ≡ record { version = version.now; body = body.now }) }
        ensures refused { IfErr result (λ e. e ≡ OutOfMemory) }
    {
        Ok(Holding {
            version: ArcStr::from_str(alloc, version)?,
            body: ArcStr::from_str(alloc, body)?,
        })
    }

    /// The version that a delta response gave the resource. In the state of the world it is empty.
    pub fn version(&self) -> &str
        ensures { result.now ≡ self.now.version }
    {
        self.version.as_str()
    }

    /// The compact text of the resource's object.
    pub fn body(&self) -> &str
        ensures { result.now ≡ self.now.body }
    {
        self.body.as_str()
    }

    pub fn try_copy(&self) -> Result<Holding, Refusal>
        ensures ok { IfOk result (λ h. h ≡ self.now) }
        ensures refused { IfErr result (λ e. e ≡ OutOfMemory) }
    {
        Ok(Holding {
            version: self.version.clone()?,
            body: self.body.clone()?,
        })
    }
}
