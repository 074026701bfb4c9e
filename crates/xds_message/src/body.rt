// The stored texts of resources.
ghost use Rattle.std.specs.Prelude.{◌≡◌, map, IfOk, IfErr, true};
ghost use Rattle.std.specs.Arc.{arc_str_bytes};
ghost use Rattle.serde_json.specs.View.{view};
ghost use Rattle.xds_resource.specs.Resources.{value_of};
ghost use Rattle.xds_resource.specs.declared.refusal.Refusal.TheVariants.{OutOfMemory};
ghost use Rattle.xds_message.specs.Drafts.{IsBodyText, body_text};

use crate::joining::Join;
use crate::pieces::{Parts, Stored};
use serde_json::Value;
use std::alloc::Global;
use std::marker::Model;
use std::sync::ArcStr;
use xds_resource::Refusal;

/// The compact text of a resource's object, shared with the write that it stands in.
pub struct Body {
    text: ArcStr<Global>,
}

// Written out: docs/PROVING.md, "Drops".
impl Drop for Body {
    fn drop(self) {
        let Body { text: _ } = self;
    }
}

impl Model for Body {
    ghost use Rattle.std.specs.Prelude.{List, ℕ};
    ghost use Rattle.std.specs.Arc.{arc_str_bytes};
    ghost use Rattle.xds_message.specs.Drafts.{IsBodyText};

    ghost Value = { List ℕ };

    ghost view = { λ b. arc_str_bytes b.text };

    ghost invariant = { λ b. IsBodyText (arc_str_bytes b.text) };
}

impl Join for Body {
    ghost json = { value_of };

    fn size(&self) -> usize {
        self.text.len()
    }

    fn join(&self, _alloc: Global, out: &mut String) -> Result<(), Refusal> {
        Ok(out.push_str(self.text.as_str())?)
    }
}

impl Stored for Body {
    ghost text = { body_text };

    fn parts(&self) -> Parts<'_> {
        Parts {
            head: "",
            body: self.text(),
            tail: "",
        }
    }
}

impl Body {
    pub(crate) fn new(text: ArcStr<Global>) -> Body
        requires { IsBodyText (arc_str_bytes text) }
        ensures { result ≡ arc_str_bytes text }
    {
        Body { text }
    }

    /// The text.
    pub fn text(&self) -> &str
        ensures now { result.now ≡ self.now }
        ensures compact { result.now ≡ body_text self.now }
    {
        self.text.as_str()
    }

    /// The resource's object, as it is read again from its text.
    pub(crate) fn value(&self, alloc: Global) -> Result<Value, Refusal>
        ensures ok { IfOk result (λ v. view v ≡ value_of self.now) }
        ensures sound { IsBodyText self.now }
        ensures refused { IfErr result (λ e. e ≡ OutOfMemory) }
    {
        match Value::from_str(alloc, self.text.as_str()) {
            Ok(value) => Ok(value),
            Err(_) => Err(Refusal::OutOfMemory),
        }
    }
}
