// What is believed of one name, where it stands: in an offer that was accepted, or in a difference from it.
ghost use Rattle.std.specs.Prelude.{◌≡◌};
ghost use Rattle.std.specs.Option.{option_map};
ghost use Rattle.xds_ledger.specs.Believing.{once_told};
ghost use Rattle.xds_ledger.specs.Overlay.{entry_of, told_in, tells};

use crate::entry::{Due, Entry};
use crate::shared_map::SharedMap;
use crate::version::Version;

/// What is believed of a name that a client holds, where it stands.
#[derive(Clone, Copy, Debug)]
pub enum Believed<'a> {
    /// It was told this version.
    Told(&'a Version),
    /// It is not known what it holds.
    Unsure,
}

// What is believed by a difference.
pub fn by_difference(entry: &Option<Entry>) -> Option<Believed<'_>>
    ensures { option_map entry_of result ≡ entry.now }
{
    match entry {
        Some(Entry::Told(version)) => Some(Believed::Told(version)),
        Some(Entry::Unsure) => Some(Believed::Unsure),
        None => None,
    }
}

// What is believed once an offer was accepted that says this of a name.
fn once_told(due: &Due) -> Option<Believed<'_>>
    ensures { option_map entry_of result ≡ once_told due.now }
{
    match due {
        Due::Stated(version) => Some(Believed::Told(version)),
        Due::Removed => None,
    }
}

// What is believed of a name by an offer that was accepted, if there is one.
pub fn told_in<'a>(base: &'a Option<SharedMap<Due>>, name: &str) -> Option<Believed<'a>>
    ensures { option_map entry_of result ≡ told_in base.now name.now }
{
    match base {
        Some(offer) => match offer.get(name) {
            Some(due) => once_told(due),
            None => None,
        },
        None => None,
    }
}

// Whether something is.
pub fn tells(base: &Option<SharedMap<Due>>, name: &str) -> bool
    ensures { result ≡ tells base.now name.now }
{
    told_in(base, name).is_some()
}
