// The text of a client's cluster.
ghost use Rattle.std.specs.Prelude.{◌≡◌, [], IfOk, IfErr};
ghost use Rattle.xds_resource.specs.declared.refusal.Refusal.TheVariants.{OutOfMemory};

use std::alloc::Global;
use std::marker::Model;
use std::sync::ArcStr;
use xds_resource::Refusal;

/// The text of the cluster of a client's node, empty where it has none. It is held once, however many interests have
/// it, and takes no memory where it is empty.
pub struct ClusterText {
    text: Option<ArcStr<Global>>,
}

// Written out: docs/PROVING.md, "Drops".
impl Drop for ClusterText {
    fn drop(self) {
        let ClusterText { text: _ } = self;
    }
}

impl Model for ClusterText {
    ghost use Rattle.std.specs.Prelude.{ℕ, List};
    ghost use Rattle.std.specs.Coded.{coded_ℕ, coded_list};
    ghost use Rattle.std.specs.Arc.{arc_str_bytes};
    ghost use Rattle.xds_interest.specs.Interests.{text_or_empty};

    ghost Value = { List ℕ };

    ghost coded = { coded_list coded_ℕ };

    ghost view = { λ c. text_or_empty arc_str_bytes c.text };
}

impl ClusterText {
    /// The text of a client without a cluster.
    pub fn none() -> ClusterText
        ensures { result ≡ [] }
    {
        ClusterText { text: None }
    }

    /// Refused only by `OutOfMemory`.
    pub fn new(alloc: Global, text: &str) -> Result<ClusterText, Refusal>
        ensures ok { IfOk result (λ c. c ≡ text.now) }
        ensures err { IfErr result (λ e. e ≡ OutOfMemory) }
    {
        if text.is_empty() {
            return Ok(ClusterText::none());
        }
        let text = ArcStr::from_str(alloc, text)?;
        Ok(ClusterText { text: Some(text) })
    }

    pub fn as_str(&self) -> &str
        ensures { result.now ≡ self.now }
    {
        match &self.text {
            Some(text) => text.as_str(),
            None => "",
        }
    }

    /// The same text, of which no bytes are copied. `OutOfMemory` where it has 2^63 owners.
    pub fn try_copy(&self) -> Result<ClusterText, Refusal>
        ensures ok { IfOk result (λ c. c ≡ self.now) }
        ensures err { IfErr result (λ e. e ≡ OutOfMemory) }
    {
        match &self.text {
            Some(text) => Ok(ClusterText {
                text: Some(text.clone()?),
            }),
            None => Ok(ClusterText::none()),
        }
    }
}
