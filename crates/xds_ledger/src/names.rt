// What a request says of names.
ghost use Rattle.std.specs.Prelude.{◌≡◌, map, string_bytes};
ghost use Rattle.std.specs.FinMap as finmap;
ghost use Rattle.std.specs.FinSet as set;
ghost use Rattle.xds_ledger.specs.Believing.{AreInOrder, versions_of};

use std::collections::btree_set::Iter;
use std::marker::Model;
use xds_interest::{Interest, Touched};
use xds_resource::ResourceType;

/// What a request says of names: the client's interest then, the names that it touches, those that it mentions, and the
/// versions that the client says it holds.
#[derive(Drop)]
pub struct Names<'a, T: ResourceType> {
    pub(crate) interest: &'a Interest<T>,
    pub(crate) touched: &'a Touched,
    pub(crate) mentioned: Iter<'a, String>,
    // In ascending order of names.
    pub(crate) versions: &'a [(&'a str, &'a str)],
}

impl<'a, T: ResourceType> Model for Names<'a, T> {
    ghost use Rattle.std.specs.Prelude.{map, string_bytes};
    ghost use Rattle.std.specs.FinSet as set;
    ghost use Rattle.xds_ledger.specs.Believing as believing;
    ghost use Rattle.xds_ledger.specs.Believing.{names_code, AreInOrder, versions_of};

    ghost Value = { believing.Names };

    ghost coded = { names_code };

    ghost view = { λ n. record {
      interest = n.interest.now;
      touched = n.touched.now;
      mentioned = set.from_list (map string_bytes n.mentioned);
      versions = versions_of (map (λ p. (p.0.now, p.1.now)) n.versions.now);
    } };

    ghost invariant = { λ n. AreInOrder (map (λ p. (p.0.now, p.1.now)) n.versions.now) };
}

impl<'a, T: ResourceType> Names<'a, T> {
    /// What a request says that tells no version.
    pub fn new(
        interest: &'a Interest<T>,
        touched: &'a Touched,
        mentioned: Iter<'a, String>,
    ) -> Names<'a, T>
        ensures { result ≡ record {
          interest = interest.now;
          touched = touched.now;
          mentioned = set.from_list (map string_bytes mentioned.entry);
          versions = finmap.empty;
        } }
    {
        Names {
            interest,
            touched,
            mentioned,
            versions: &[],
        }
    }

    /// Adds the versions that the client says it holds, in ascending order of names.
    pub fn resuming(self, versions: &'a [(&'a str, &'a str)]) -> Names<'a, T>
        requires { AreInOrder (map (λ p. (p.0.now, p.1.now)) versions.now) }
        ensures { result ≡ record self.entry { versions = versions_of (map (λ p. (p.0.now, p.1.now)) versions.now) } }
    {
        let Names {
            interest,
            touched,
            mentioned,
            versions: _,
        } = self;
        Names {
            interest,
            touched,
            mentioned,
            versions,
        }
    }

    /// The names that the request touches.
    pub(crate) fn touched(&self) -> &'a Touched
        ensures { result.now ≡ self.now.touched }
    {
        self.touched
    }
}
