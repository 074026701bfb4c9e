// What is kept of the name lists of a state-of-the-world stream.
ghost use Rattle.std.specs.Prelude.{◌≡◌, true, map, IfOk, IfErr, OnOk, OnErr};
ghost use Rattle.std.specs.String.{string_bytes};
ghost use Rattle.xds_resource.specs.declared.refusal.Refusal.TheVariants.{OutOfMemory};
ghost use Rattle.xds_interest.specs.Asked.{unasked, sotw_asked};
ghost use Rattle.xds_interest.specs.Touches.{sotw_touch};

use crate::cluster::ClusterText;
use crate::interest::Interest;
use crate::touched::Touched;
use std::alloc::Global;
use std::marker::Model;
use xds_resource::{Refusal, ResourceType};

/// What a state-of-the-world stream has asked of the type `T` so far: the client's interest, and
/// whether a list of it has named something. Once one has, an empty list is no star any more.
pub struct SotwNames<T: ResourceType> {
    begun: bool,
    named: bool,
    interest: Interest<T>,
}

// Written out: docs/PROVING.md, "Drops".
impl<T: ResourceType> Drop for SotwNames<T> {
    fn drop(self) {
        let SotwNames {
            begun: _,
            named: _,
            interest: _,
        } = self;
    }
}

impl<T: ResourceType> Model for SotwNames<T> {
    ghost use Rattle.xds_interest.specs.Asked.{Asked, asked_code};

    ghost Value = { Asked };

    ghost coded = { asked_code };

    ghost view = { λ a. record { begun = a.begun; named = a.named; interest = a.interest } };
}

impl<T: ResourceType> SotwNames<T> {
    // rule: listed-names
    /// Before the first request of a client of this cluster, when it wants nothing.
    pub fn new(alloc: Global, cluster: ClusterText) -> Self
        ensures { result ≡ unasked cluster }
    {
        SotwNames {
            begun: false,
            named: false,
            interest: Interest::nothing(alloc, cluster),
        }
    }

    pub fn interest(&self) -> &Interest<T>
        ensures { result.now ≡ self.now.interest }
    {
        &self.interest
    }

    /// Whether there was a request.
    pub fn has_begun(&self) -> bool
        ensures { result ≡ self.now.begun }
    {
        self.begun
    }

    // rule: listed-names
    /// What is kept after one list more. Refused only by `OutOfMemory`.
    pub fn after(&self, alloc: Global, names: &[String]) -> Result<SotwNames<T>, Refusal>
        ensures ok { IfOk result (λ n. n ≡ sotw_asked T.TYPE self.now (map string_bytes names.now)) }
        ensures err { IfErr result (λ e. e ≡ OutOfMemory) }
    {
        let cluster = self.interest.shared_cluster()?;
        let interest = if self.named && names.is_empty() {
            Interest::nothing(alloc, cluster)
        } else {
            Interest::of_list(alloc, names, cluster)?
        };
        Ok(SotwNames {
            begun: true,
            named: self.named || !names.is_empty(),
            interest,
        })
    }

    // rule: listed-names
    /// Whether one list more leaves what is kept as it is. No name is copied. It isn't told of each such list, but of one that has the
    /// explicit names in ascending order, each once, for which it takes no memory; and of one that has as many texts as there are
    /// such names, for which it takes a block of references. Where there is none, it answers `false`.
    pub fn says_again(&self, alloc: Global, names: &[String]) -> bool
        ensures { result ≡ true → sotw_asked T.TYPE self.now (map string_bytes names.now) ≡ self.now }
    {
        self.begun
            && (self.named || names.is_empty())
            && self.interest.is_after(alloc, self.named, names)
    }

    // rule: listed-names
    /// Takes one list more, and answers the names that it touches. Refused only by `OutOfMemory`,
    /// and then the list is not taken.
    pub fn take(&mut self, alloc: Global, names: &[String]) -> Result<Touched, Refusal>
        ensures ok { OnOk result (self.new ≡ sotw_asked T.TYPE self.old (map string_bytes names.now)) }
        ensures touched { IfOk result (λ t. t ≡ sotw_touch self.old.interest (sotw_asked T.TYPE self.old (map string_bytes names.now)).interest) }
        ensures err { OnErr result (self.new ≡ self.old) }
        ensures refused { IfErr result (λ e. e ≡ OutOfMemory) }
    {
        let next = self.after(alloc, names)?;
        let touched = self.interest.touched_until(alloc, &next.interest)?;
        *self = next;
        Ok(touched)
    }

    /// An equal value, with memory of its own. Refused only by `OutOfMemory`.
    pub fn try_copy(&self, alloc: Global) -> Result<SotwNames<T>, Refusal>
        ensures ok { IfOk result (λ a. a ≡ self.now) }
        ensures err { IfErr result (λ e. e ≡ OutOfMemory) }
    {
        let interest = self.interest.try_copy(alloc)?;
        Ok(SotwNames {
            begun: self.begun,
            named: self.named,
            interest,
        })
    }
}
