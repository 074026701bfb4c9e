// A draft is written as the text that its message is written as.
use std::alloc::Global;
use std::sync::ArcStr;
use std::test::Fail;
use xds_frames::frame::LONGEST;
use xds_frames::{Counted, FrameKind, write_frame};
use xds_message::{
    Bodies, Body, DeltaDraft, Draft, DraftResource, Pieces, Resources, Response, SotwDraft, Unsent,
    push_body, push_resource,
};
use xds_resource::{Cluster, Groups, Refusal, Resource, Stamp, TypeName, Write};

// A cluster whose name and whose other field need escapes.
const BODY: &str = "{\"@type\":\"type.googleapis.com/envoy.config.cluster.v3.Cluster\",\
     \"name\":\"q\\\"\\\\\\u0001é\",\"x\":[-7,\"\\n\"]}";

fn put(alloc: Global, stamp: Stamp, text: &str) -> Result<Write<Cluster>, Refusal> {
    let resource = Resource::parse(alloc, text)?;
    Ok(Write::put(stamp, resource, Groups::none()))
}

fn text(alloc: Global, text: &str) -> Result<String, Refusal> {
    Ok(String::from_str(alloc, text)?)
}

// What the message of a draft is written as.
fn told(alloc: Global, draft: &Draft) -> Result<String, Refusal> {
    match draft.message(alloc)? {
        Response::Sotw(response) => response.write(alloc),
        Response::Delta(response) => response.write(alloc),
    }
}

// What a copy of a draft shows: its type, its nonce, what it is written as, and what its message is
// written as.
fn copy_shown(alloc: Global, draft: Draft) -> Result<String, Refusal> {
    let copy = draft.try_copy(alloc);
    drop(draft);
    let copy = copy?;
    let shown = shown(alloc, &copy);
    drop(copy);
    shown
}

fn shown(alloc: Global, draft: &Draft) -> Result<String, Refusal> {
    let written = draft.write(alloc)?;
    let message = told(alloc, draft)?;
    let (word, nonce) = (draft.kind().word(), draft.nonce());
    Ok(format!(in alloc; "{word} {nonce} {written} {message}")?)
}

fn push(alloc: Global, bodies: &mut Vec<Body>, stamp: Stamp) -> Result<(), Refusal> {
    let write = put(alloc, stamp, BODY)?;
    let pushed = push_body(bodies, &write);
    drop(write);
    pushed
}

// The texts of so many resources.
fn bodies_of(alloc: Global, count: u64) -> Result<Bodies, Refusal> {
    let mut bodies = Vec::new(alloc);
    for _ in 0..count {
        push(alloc, &mut bodies, Stamp::new(1, 1))?;
    }
    Bodies::new(bodies)
}

// A draft of these texts.
fn stating(alloc: Global, bodies: Bodies) -> Result<SotwDraft, Refusal> {
    let version = text(alloc, "1.2")?;
    let nonce = text(alloc, "1")?;
    Ok(SotwDraft::new(TypeName::Cluster, version, nonce, bodies))
}

// What a draft of so many resources shows: the same, whether its list is made for many responses or
// not.
fn stated(alloc: Global, count: u64) -> Result<String, Refusal> {
    let alone = sotw_shown(alloc, &stating(alloc, bodies_of(alloc, count)?)?)?;
    let shared = bodies_of(alloc, count)?.shared(alloc)?;
    let together = sotw_shown(alloc, &stating(alloc, shared)?)?;
    Ok(if alone.as_str() == together.as_str() {
        alone
    } else {
        format!(in alloc; "{alone}\n{together}")?
    })
}

// A list that is made for many responses is written as one piece, if there is something in it. A
// copy, which a journal keeps, holds no joined text, so it is written body by body.
#[test]
fn a_shared_list_is_one_piece(rt: HostRuntime) -> Result<(), Fail> {
    let alloc = rt.alloc();
    let shared = stating(alloc, bodies_of(alloc, 2)?.shared(alloc)?)?;
    let copy = shared.try_copy(alloc)?;
    let alone = stating(alloc, bodies_of(alloc, 2)?)?;
    let empty = stating(alloc, bodies_of(alloc, 0)?.shared(alloc)?)?;
    assert!(rt; shared.pieces(alloc)?.is_joined());
    assert!(rt; !copy.pieces(alloc)?.is_joined());
    assert!(rt; !alone.pieces(alloc)?.is_joined());
    assert!(rt; !empty.pieces(alloc)?.is_joined());
    Ok(())
}

// A text that is written piece by piece through a block of so many bytes behind a first word, with
// its length, and whether one byte less than that is known to be too few.
fn put_together(alloc: Global, text: &Pieces<'_>, room: usize) -> Result<String, Refusal> {
    let mut block = Vec::with_capacity(alloc, room)?;
    block.extend_from_slice(b"> ")?;
    let mut writer = Counted::new(Vec::new(alloc));
    text.write(&mut writer, block)?;
    let length = text.length_up_to(1_000_000);
    let short = match length {
        Some(length) => text.length_up_to(length.saturating_sub(1)).is_none(),
        None => false,
    };
    let written = String::from_utf8(writer.inner).map_err(|_| Refusal::NotJson)?;
    Ok(format!(in alloc; "{length:?} {short} {written}")?)
}

// What a draft is put together as, through a small block and through a large one; its type and
// version; and what a copy of it shows.
fn sotw_shown(alloc: Global, draft: &SotwDraft) -> Result<String, Refusal> {
    let pieces = draft.pieces(alloc)?;
    let small = put_together(alloc, &pieces, 8)?;
    let large = put_together(alloc, &pieces, 4_096)?;
    drop(pieces);
    let shown = copy_shown(alloc, Draft::Sotw(draft.try_copy(alloc)?))?;
    let (word, version) = (draft.kind().word(), draft.version());
    Ok(format!(in alloc; "{small}\n{large}\n{word} {version} {shown}")?)
}

#[test]
fn state_of_the_world_drafts_are_joined(rt: HostRuntime) -> Result<(), Fail> {
    let alloc = rt.alloc();
    let empty = stated(alloc, 0)?;
    let filled = stated(alloc, 2)?;
    let nothing =
        "{\"nonce\":\"1\",\"typeUrl\":\"type.googleapis.com/envoy.config.cluster.v3.Cluster\",\
         \"versionInfo\":\"1.2\"}";
    let want = format!(in alloc;
        "{{\"nonce\":\"1\",\"resources\":[{BODY},{BODY}],\
         \"typeUrl\":\"type.googleapis.com/envoy.config.cluster.v3.Cluster\",\
         \"versionInfo\":\"1.2\"}}"
    )?;
    let (few, many) = (nothing.len(), want.len());
    let none = format!(in alloc;
        "Some({few}) true > {nothing}\nSome({few}) true > {nothing}\n\
         cluster 1.2 cluster 1 {nothing} {nothing}"
    )?;
    let both = format!(in alloc;
        "Some({many}) true > {want}\nSome({many}) true > {want}\n\
         cluster 1.2 cluster 1 {want} {want}"
    )?;
    assert_eq!(rt; empty.as_str(), none.as_str());
    assert_eq!(rt; filled.as_str(), both.as_str());
    Ok(())
}

fn push_both(alloc: Global, resources: &mut Vec<DraftResource>) -> Result<(), Refusal> {
    let write = put(alloc, Stamp::new(2, 1), BODY)?;
    let pushed = push_resource(alloc, resources, &write);
    drop(write);
    pushed?;
    let gone = Write::deletion(Stamp::new(3, 1), ArcStr::from_str(alloc, "gone")?);
    let pushed = push_resource::<Cluster>(alloc, resources, &gone);
    drop(gone);
    pushed
}

// A draft of a cluster and of two names that are gone; a deletion adds nothing.
fn delta_draft(alloc: Global) -> Result<DeltaDraft, Refusal> {
    let mut resources = Vec::new(alloc);
    push_both(alloc, &mut resources)?;
    let mut removed = Vec::new(alloc);
    removed.push(text(alloc, "r\t\u{1f600}")?)?;
    removed.push(text(alloc, "s")?)?;
    let version = text(alloc, "1.2")?;
    let nonce = text(alloc, "1")?;
    let stated = Resources::new(resources)?;
    Ok(DeltaDraft::new(TypeName::Cluster, version, nonce, stated, removed))
}

// The version and the nonce of a draft, how many it states and removes, what it is put together as,
// and what a copy of it shows.
fn delta_shown(alloc: Global) -> Result<String, Refusal> {
    let draft = delta_draft(alloc)?;
    let shown = copy_shown(alloc, Draft::Delta(draft.try_copy(alloc)?))?;
    let (version, nonce) = (draft.version(), draft.nonce());
    let (stated, removed) = (draft.stated(), draft.removed().len());
    let told = format!(in alloc; "{version} {nonce} {stated} {removed} {shown}")?;
    let whole = Draft::Delta(draft);
    let pieces = whole.pieces(alloc)?;
    let together = put_together(alloc, &pieces, 64)?;
    drop(pieces);
    Ok(format!(in alloc; "{told}\n{together}")?)
}

#[test]
fn delta_drafts_are_joined(rt: HostRuntime) -> Result<(), Fail> {
    let alloc = rt.alloc();
    let told = delta_shown(alloc)?;
    let want = format!(in alloc;
        "{{\"nonce\":\"1\",\"removedResources\":[\"r\\t\u{1f600}\",\"s\"],\
         \"resources\":[{{\"name\":\"q\\\"\\\\\\u0001é\",\
         \"resource\":{BODY},\"version\":\"2-1\"}}],\
         \"systemVersionInfo\":\"1.2\",\
         \"typeUrl\":\"type.googleapis.com/envoy.config.cluster.v3.Cluster\"}}"
    )?;
    let length = want.len();
    let all = format!(in alloc; "1.2 1 1 2 cluster 1 {want} {want}\nSome({length}) true > {want}")?;
    assert_eq!(rt; told.as_str(), all.as_str());
    Ok(())
}

// What is left of a frame, taken so many bytes at a time, as far as they lie together.
fn taken(alloc: Global, mut left: Unsent, step: usize) -> Result<Vec<u8>, Refusal> {
    let mut out = Vec::new(alloc);
    for _ in 0..100_000 {
        let chunk = left.chunk();
        let count = chunk.len().min(step);
        if count == 0 {
            break;
        }
        out.extend_from_slice(&chunk[..count])?;
        left.advance(count);
    }
    Ok(out)
}

// Whether the frame of a draft, left to be written by a block of about so many bytes, is the frame of its text.
fn is_left(alloc: Global, draft: &Draft, room: usize, step: usize) -> Result<bool, Refusal> {
    let text = draft.write(alloc)?;
    if text.as_str().len() > LONGEST {
        return Err(Refusal::FrameTooLong);
    }
    let frame = write_frame(alloc, FrameKind::DiscoveryResponse, text.as_bytes())?;
    let mut block = Vec::with_capacity(alloc, room)?;
    block.extend_from_slice(&frame.as_slice()[..frame.len().min(5)])?;
    let out = taken(alloc, draft.unsent(alloc, block)?, step)?;
    Ok(out.as_slice() == frame.as_slice())
}

// The same of small blocks and of large ones, byte by byte and by odd pieces.
fn is_left_by_all(alloc: Global, draft: &Draft) -> Result<bool, Refusal> {
    for room in [0, 5, 16, 90, 130, 300, 4_096] {
        for step in [1, 3, 7, 101, 10_000] {
            if !is_left(alloc, draft, room, step)? {
                return Ok(false);
            }
        }
    }
    Ok(true)
}

// Three clusters with their names and versions.
fn resources_of_three(alloc: Global) -> Result<Resources, Refusal> {
    let mut resources = Vec::new(alloc);
    push_both(alloc, &mut resources)?;
    push_both(alloc, &mut resources)?;
    push_both(alloc, &mut resources)?;
    Resources::new(resources)
}

// A draft of these resources.
fn telling(alloc: Global, stated: Resources) -> Result<Draft, Refusal> {
    let version = text(alloc, "1.2")?;
    let nonce = text(alloc, "1")?;
    let removed = Vec::new(alloc);
    let draft = DeltaDraft::new(TypeName::Cluster, version, nonce, stated, removed);
    Ok(Draft::Delta(draft))
}

// A draft of three clusters.
fn three(alloc: Global) -> Result<Draft, Refusal> {
    telling(alloc, resources_of_three(alloc)?)
}

// Resources that are made for many responses are written as one piece, and as they are written each for itself. A copy holds no
// joined text.
#[test]
fn shared_resources_are_one_piece(rt: HostRuntime) -> Result<(), Fail> {
    let alloc = rt.alloc();
    let alone = three(alloc)?;
    let shared = telling(alloc, resources_of_three(alloc)?.shared(alloc)?)?;
    let copy = shared.try_copy(alloc)?;
    assert!(rt; shared.pieces(alloc)?.is_joined());
    assert!(rt; !alone.pieces(alloc)?.is_joined());
    assert!(rt; !copy.pieces(alloc)?.is_joined());
    assert!(rt;
        put_together(alloc, &shared.pieces(alloc)?, 64)?.as_str()
            == put_together(alloc, &alone.pieces(alloc)?, 64)?.as_str()
    );
    assert!(rt; is_left_by_all(alloc, &shared)?);
    Ok(())
}

// The texts of resources may be longer than the block.
#[test]
fn a_frame_is_left_to_be_written_as_its_draft_is_written(rt: HostRuntime) -> Result<(), Fail> {
    let alloc = rt.alloc();
    let alone = Draft::Sotw(stating(alloc, bodies_of(alloc, 4)?)?);
    let shared = Draft::Sotw(stating(alloc, bodies_of(alloc, 4)?.shared(alloc)?)?);
    let empty = Draft::Sotw(stating(alloc, bodies_of(alloc, 0)?)?);
    assert!(rt; is_left_by_all(alloc, &alone)?);
    assert!(rt; is_left_by_all(alloc, &shared)?);
    assert!(rt; is_left_by_all(alloc, &empty)?);
    assert!(rt; is_left_by_all(alloc, &three(alloc)?)?);
    assert!(rt; is_left_by_all(alloc, &Draft::Delta(delta_draft(alloc)?))?);
    Ok(())
}
