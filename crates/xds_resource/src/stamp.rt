// Stamps, and the version texts that name them on the wire.
ghost use Rattle.std.specs.Prelude.{◌≡◌, IfOk, IfErr, IsOkAnd, string_bytes, ℕ, ◌<◌, ◌^◌, Some, IfSome, decimal};
ghost use Rattle.xds_resource.specs.Stamps.{IsStamp, version_text as spec_version, max_counter, max_writer};

use crate::decimal::decimal_number;
use crate::refusal::Refusal;
use std::alloc::Global;

/// The greatest counter of a stamp.
pub const MAX_COUNTER: u64 = 9_223_372_036_854_775_807;

/// When and by whom a write was made: stamps are ordered by counter, then writer.
#[derive(Clone, Copy, Debug, PartialEq, Eq, PartialOrd, Ord, Hash)]
pub struct Stamp {
    /// From 1 to [`MAX_COUNTER`].
    pub counter: u64,
    /// The number of the replica that made the write, from 1.
    pub writer: u16,
    ghost in_range: { IsStamp counter writer },
}

impl Stamp {
    /// The stamp of a counter and a writer that may stamp a write.
    pub fn new(counter: u64, writer: u16) -> Stamp
        requires { IsStamp counter writer }
        ensures counter { result.counter ≡ counter }
        ensures writer { result.writer ≡ writer }
    {
        Stamp { counter, writer }
    }

    /// The stamp that a version text names, as `12-3`; any other text is `BadStamp`.
    pub fn parse_version(text: &str) -> Result<Stamp, Refusal>
        ensures named { IfOk result (λ s. text.now ≡ spec_version s.counter s.writer) }
        ensures reads_back { (counter writer : ℕ) → IsStamp counter writer → text.now ≡ spec_version counter writer
            → IsOkAnd result (λ s. (s.counter ≡ counter) × (s.writer ≡ writer)) }
        ensures refused { IfErr result (λ e. e ≡ Refusal.BadStamp) }
    {
        let Some((counter, writer)) = text.split_once('-') else {
            return Err(Refusal::BadStamp);
        };
        let (Some(counter), Some(writer)) = (decimal_number(counter), writer_of(writer)) else {
            return Err(Refusal::BadStamp);
        };
        if counter == 0 || counter > MAX_COUNTER || writer == 0 {
            return Err(Refusal::BadStamp);
        }
        Ok(Stamp::new(counter, writer))
    }

    /// The version text: counter, a dash, writer. `OutOfMemory` where no text could be made.
    pub fn version_text(self, alloc: Global) -> Result<String, Refusal>
        ensures text { IfOk result (λ s. string_bytes s ≡ spec_version self.counter self.writer) }
        ensures refused { IfErr result (λ e. e ≡ Refusal.OutOfMemory) }
    {
        let counter = self.counter;
        let writer = self.writer;
        Ok(format!(in alloc; "{counter}-{writer}")?)
    }
}

// The number of a writer, in decimal.
fn writer_of(text: &str) -> Option<u16>
    ensures shortest { IfSome result (λ n. text.now ≡ decimal n) }
    ensures all { (n : ℕ) → n < 2 ^ 16 → text.now ≡ decimal n → result ≡ Some n }
{
    u16::try_from(decimal_number(text)?).ok()
}
