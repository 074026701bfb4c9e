// What is seen of a ledger with no look at a name.
ghost use Rattle.std.specs.Prelude.{◌≡◌, true};
ghost use Rattle.std.specs.FinMap as finmap;

use crate::ledger::Ledger;
use crate::variant::Variant;
use xds_resource::ResourceType;

impl<T: ResourceType, V: Variant> Ledger<T, V> {
    /// Whether nothing is believed held, as far as that is seen at once.
    pub fn believes_nothing(&self) -> bool
        ensures { result ≡ true → self.now.account.beliefs ≡ finmap.empty }
    {
        self.account.beliefs().is_empty()
    }

    /// Whether a response may be to be sent at this count of changes: nothing is unanswered, and a name is listed, something changed
    /// above the list's mark, or no response was accepted yet.
    pub fn may_send(&self, changes: u64) -> bool {
        !self.account.awaits_answer()
            && (self.listed.has_names()
                || self.listed.mark() < changes
                || !self.account.has_accepted())
    }
}
