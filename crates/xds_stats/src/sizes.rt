// How long the whole response of a type is, and what is told where it comes near what a frame may have.
ghost use Rattle.std.specs.Prelude.{◌≡◌, [], ◌∷◌, ◌++◌, decimal, option_map, string_bytes, length, IfOk, IfErr, OnOk};
ghost use Rattle.xds_message.specs.Drafts.{message_of};
ghost use Rattle.xds_message.specs.Written.{response_object};
ghost use Rattle.serde_json.specs.Written.{compact_text};
ghost use Rattle.xds_ledger.specs.Texts.{replica_version};
ghost use Rattle.xds_stats.specs.Sizes.{beyond_by, first_response, is_beyond, is_many, last_response, live_texts, long_text, others, refused_bytes, response_bytes, warning_of, with_put};

use std::alloc::Global;
use xds_frames::{FrameKind, frame_head};
use xds_ledger::texts::{nonce_text, replica_version};
use xds_message::{Bodies, Body, SotwDraft, push_body};
use xds_resource::stamp::MAX_COUNTER;
use xds_resource::{Refusal, ResourceType, TypeName, Write};

/// As many bytes as the text of a response may have.
pub const MOST_BYTES: u64 = 16_777_215;

/// From so many bytes on a response is told to be long: the half of what a frame may have.
pub const MANY_BYTES: u64 = 8_388_608;

// The number of a stream's first response, and that of the last one that it may have.
const FIRST: u64 = 1;

const LAST: u64 = MAX_COUNTER;

/// Whether a text of so many bytes is refused where it is to be framed.
pub fn is_beyond(bytes: u64) -> bool
    ensures { result ≡ is_beyond bytes }
{
    frame_head(FrameKind::DiscoveryResponse, bytes as usize).is_err()
}

/// Whether so many bytes are told to be many.
pub fn is_many(bytes: u64) -> bool
    ensures { result ≡ is_many bytes }
{
    bytes >= MANY_BYTES
}

/// What is told of a response of so many bytes, if something is.
pub fn warning_of(bytes: u64) -> Option<&'static str>
    ensures { option_map (λ s. s.now) result ≡ warning_of bytes }
{
    if is_beyond(bytes) {
        return Some("a client of * isn't answered: 16 FrameTooLong");
    }
    if is_many(bytes) {
        return Some("over half of what a frame may have");
    }
    None
}

/// How a response is told that would be too long.
pub fn long_text(alloc: Global, kind: TypeName, bytes: u64) -> Result<String, Refusal>
    ensures ok { IfOk result (λ t. string_bytes t ≡ long_text kind bytes) }
    ensures refused { IfErr result (λ e. e ≡ Refusal.OutOfMemory) }
{
    let kind = kind.word();
    Ok(format!(in alloc;
        "the whole response of {kind} would have {bytes} bytes, and a frame has 16777215 at most"
    )?)
}

// The texts of what is live of these writes.
fn live_texts<T: ResourceType>(alloc: Global, writes: &[Write<T>]) -> Result<Vec<Body>, Refusal>
    ensures ok { IfOk result (λ v. v.items ≡ live_texts writes.now) }
    ensures refused { IfErr result (λ e. e ≡ Refusal.OutOfMemory) }
{
    let mut bodies = Vec::new(alloc);
    for write in writes {
        push_body(&mut bodies, write)?;
    }
    Ok(bodies)
}

// The texts of what is live once a write is put among others.
fn texts_with<T: ResourceType>(
    alloc: Global,
    writes: &[Write<T>],
    put: &Write<T>,
) -> Result<Vec<Body>, Refusal>
    ensures ok { IfOk result (λ v. v.items ≡ live_texts (with_put put.now writes.now)) }
    ensures refused { IfErr result (λ e. e ≡ Refusal.OutOfMemory) }
{
    let mut bodies = other_texts(alloc, writes, put)?;
    push_body(&mut bodies, put)?;
    Ok(bodies)
}

// The texts of what is live under other names.
fn other_texts<T: ResourceType>(
    alloc: Global,
    writes: &[Write<T>],
    put: &Write<T>,
) -> Result<Vec<Body>, Refusal>
    ensures ok { IfOk result (λ v. v.items ≡ live_texts (others put.now writes.now)) }
    ensures refused { IfErr result (λ e. e ≡ Refusal.OutOfMemory) }
{
    let mut bodies = Vec::new(alloc);
    for write in writes {
        push_other(&mut bodies, write, put)?;
    }
    Ok(bodies)
}

// Puts the text of a write behind others, unless it has the name of another one.
fn push_other<T: ResourceType>(
    bodies: &mut Vec<Body>,
    write: &Write<T>,
    put: &Write<T>,
) -> Result<(), Refusal>
    ensures ok { OnOk result (bodies.new.items ≡ bodies.old.items ++ live_texts (others put.now (write.now ∷ []))) }
    ensures refused { IfErr result (λ e. e ≡ Refusal.OutOfMemory) }
{
    if write.name() == put.name() {
        return Ok(());
    }
    push_body(bodies, write)
}

// How many bytes the text of a response has.
fn draft_bytes(alloc: Global, draft: &SotwDraft) -> Result<u64, Refusal>
    ensures ok { IfOk result (λ n. n ≡ length (compact_text (response_object (message_of draft.now)))) }
    ensures refused { IfErr result (λ e. e ≡ Refusal.OutOfMemory) }
{
    let pieces = draft.pieces(alloc)?;
    match pieces.length_up_to(usize::MAX) {
        Some(length) => Ok(length as u64),
        None => Err(Refusal::OutOfMemory),
    }
}

// How many bytes the response of this number has that is of these resources, as of this version.
fn bytes_of(
    alloc: Global,
    kind: TypeName,
    replica: u16,
    changes: u64,
    number: u64,
    texts: Vec<Body>,
) -> Result<u64, Refusal>
    ensures ok { IfOk result (λ n. n ≡ length (compact_text (response_object (message_of (record { kind = kind; version_info = replica_version replica changes; nonce = decimal number; bodies = texts.items }))))) }
    ensures refused { IfErr result (λ e. e ≡ Refusal.OutOfMemory) }
{
    let version = replica_version(alloc, replica, changes)?;
    let nonce = nonce_text(alloc, number)?;
    let bodies = Bodies::new(texts)?;
    let draft = SotwDraft::new(kind, version, nonce, bodies);
    draft_bytes(alloc, &draft)
}

/// How many bytes the whole response of a type has: the first on its stream for `*`, of the state of the world, to a client without a
/// cluster to which all is open, from the replica of this number after so many changes of the type. No text is copied.
pub fn response_bytes<T: ResourceType>(
    alloc: Global,
    replica: u16,
    changes: u64,
    writes: &[Write<T>],
) -> Result<u64, Refusal>
    ensures ok { IfOk result (λ n. n ≡ response_bytes T.TYPE replica changes first_response writes.now) }
    ensures refused { IfErr result (λ e. e ≡ Refusal.OutOfMemory) }
{
    let texts = live_texts(alloc, writes)?;
    bytes_of(alloc, T::TYPE, replica, changes, FIRST, texts)
}

/// How many bytes the longest one of its responses has, as the nonces of a stream get longer.
pub fn longest_bytes<T: ResourceType>(
    alloc: Global,
    replica: u16,
    changes: u64,
    writes: &[Write<T>],
) -> Result<u64, Refusal>
    ensures ok { IfOk result (λ n. n ≡ response_bytes T.TYPE replica changes last_response writes.now) }
    ensures refused { IfErr result (λ e. e ≡ Refusal.OutOfMemory) }
{
    let texts = live_texts(alloc, writes)?;
    bytes_of(alloc, T::TYPE, replica, changes, LAST, texts)
}

// The same once a write is put among others.
fn bytes_with<T: ResourceType>(
    alloc: Global,
    replica: u16,
    changes: u64,
    writes: &[Write<T>],
    put: &Write<T>,
) -> Result<u64, Refusal>
    ensures ok { IfOk result (λ n. n ≡ response_bytes T.TYPE replica changes last_response (with_put put.now writes.now)) }
    ensures refused { IfErr result (λ e. e ≡ Refusal.OutOfMemory) }
{
    let texts = texts_with(alloc, writes, put)?;
    bytes_of(alloc, T::TYPE, replica, changes, LAST, texts)
}

/// How many bytes a response has that had others before, if it is longer than before, and too long for a frame.
pub fn refused_bytes(before: u64, after: u64) -> Option<u64>
    ensures { result ≡ refused_bytes before after }
{
    if before < after && is_beyond(after) {
        Some(after)
    } else {
        None
    }
}

/// How many bytes the longest whole response of a type would have by a put, after so many changes, if it would be longer by it, and too
/// long for a frame. Then the put isn't to be made. What the resource of its name has doesn't count.
pub fn beyond_by<T: ResourceType>(
    alloc: Global,
    replica: u16,
    changes: u64,
    put: &Write<T>,
    writes: &[Write<T>],
) -> Result<Option<u64>, Refusal>
    ensures ok { IfOk result (λ o. o ≡ beyond_by T.TYPE replica changes put.now writes.now) }
    ensures refused { IfErr result (λ e. e ≡ Refusal.OutOfMemory) }
{
    let before = longest_bytes(alloc, replica, changes, writes)?;
    let after = bytes_with(alloc, replica, changes, writes, put)?;
    Ok(refused_bytes(before, after))
}

/// What is known of the length of a whole response between counts of it.
#[derive(Clone, Copy, Debug, PartialEq, Eq)]
pub struct Ceiling {
    /// How many bytes it has, at most.
    pub bytes: u64,
    /// Whether it was told to be long.
    pub is_long: bool,
}

impl Ceiling {
    ghost use Rattle.std.specs.Prelude.{◌≡◌, false};
    ghost use Rattle.xds_stats.specs.Sizes.{may_tell, raised, seen, tells};

    /// That of a response of which nothing is told.
    pub fn new() -> Ceiling
        ensures { result ≡ record { bytes = 0; is_long = false } }
    {
        Ceiling {
            bytes: 0,
            is_long: false,
        }
    }

    /// It may have so many bytes more.
    pub fn raise(&mut self, more: u64)
        ensures { self.new ≡ raised self.old more }
    {
        self.bytes = self.bytes.saturating_add(more);
    }

    /// It has so many bytes. Answers whether that is to be told: once for each time that it becomes long.
    pub fn see(&mut self, bytes: u64) -> bool
        ensures seen { self.new ≡ seen self.old bytes }
        ensures tells { result ≡ tells self.old bytes }
    {
        let tells = !self.is_long && is_many(bytes);
        self.bytes = bytes;
        self.is_long = is_many(bytes);
        tells
    }

    /// Whether a count of its bytes may be told.
    pub fn may_tell(self) -> bool
        ensures { result ≡ may_tell self }
    {
        !self.is_long && is_many(self.bytes)
    }
}
