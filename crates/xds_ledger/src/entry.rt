// What the server believes of a name, and what it owes of one.
ghost use Rattle.std.specs.Prelude.{◌≡◌, IfOk, IfErr};
ghost use Rattle.xds_resource.specs.declared.refusal.Refusal.TheVariants.{OutOfMemory};
ghost use Rattle.xds_ledger.specs.Offers.{same_due};

use crate::version::Version;
use std::alloc::Global;
use xds_resource::Refusal;

/// What a client is believed to hold of a name. A name without an entry isn't held.
#[derive(Debug)]
pub enum Entry {
    /// This version.
    Told(Version),
    /// It is not known what.
    Unsure,
}

// Written out: docs/PROVING.md, "Drops".
impl Drop for Entry {
    fn drop(self) {
        match self {
            Entry::Told(_) => {}
            Entry::Unsure => {}
        }
    }
}

/// What a response says of a name.
#[derive(Debug)]
pub enum Due {
    /// The resource is stated, at this version.
    Stated(Version),
    /// The resource is gone.
    Removed,
}

// Written out: docs/PROVING.md, "Drops".
impl Drop for Due {
    fn drop(self) {
        match self {
            Due::Stated(_) => {}
            Due::Removed => {}
        }
    }
}

impl Entry {
    pub fn try_copy(&self, alloc: Global) -> Result<Entry, Refusal>
        ensures ok { IfOk result (λ e. e ≡ self.now) }
        ensures err { IfErr result (λ e. e ≡ OutOfMemory) }
    {
        match self {
            Entry::Told(version) => Ok(Entry::Told(version.try_copy(alloc)?)),
            Entry::Unsure => Ok(Entry::Unsure),
        }
    }
}

impl Due {
    pub fn try_copy(&self, alloc: Global) -> Result<Due, Refusal>
        ensures ok { IfOk result (λ d. d ≡ self.now) }
        ensures err { IfErr result (λ e. e ≡ OutOfMemory) }
    {
        match self {
            Due::Stated(version) => Ok(Due::Stated(version.try_copy(alloc)?)),
            Due::Removed => Ok(Due::Removed),
        }
    }

    // rule: refused-offer
    /// Whether both say the same.
    pub fn is_same(&self, other: &Due) -> bool
        ensures { result ≡ same_due self.now other.now }
    {
        match (self, other) {
            (Due::Stated(version), Due::Stated(another)) => version.as_str() == another.as_str(),
            (Due::Removed, Due::Removed) => true,
            _ => false,
        }
    }
}
