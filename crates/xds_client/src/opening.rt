// The start of a client's stream: what it wants, and the requests that say so.
ghost use Rattle.std.specs.Prelude.{◌≡◌, ◌⊎◌, ◌++◌, All, IfOk, IfErr, OnOk, map, false};
ghost use Rattle.xds_resource.specs.declared.refusal.Refusal.TheVariants.{OutOfMemory, FrameTooLong};
ghost use Rattle.xds_resource.specs.Types.{types};
ghost use Rattle.xds_frames.specs.Frames.{frame_bytes};
ghost use Rattle.xds_cache.specs.Sends.{first_requests, sotw_first, delta_first};
ghost use Rattle.xds_client.specs.declared.subscription.StreamVariant.TheVariants as variants;
ghost use Rattle.xds_client.specs.Subscribing.{Fits, OpeningFits, asked, asking, begun, delta_text, first_client, opening, sotw_text, wanting};
ghost use Rattle.xds_client.specs.Turning.{IsUntellable, client_of, variant_of};

use crate::answering::StreamClient;
use crate::subscription::{StreamVariant, Subscription};
use std::alloc::Global;
use xds_cache::{DeltaClient, Down, Marked, SotwClient, Up};
use xds_frames::push_frame;
use xds_message::{DeltaDiscoveryRequest, DiscoveryRequest};
use xds_resource::Refusal;

/// What a client says of itself.
const NODE_ID: &str = "xds";

// A state-of-the-world client that wants the names, and has no stream.
fn wanting_sotw(alloc: Global, wish: &Subscription<'_>) -> Result<SotwClient<Marked, Down>, Refusal>
    ensures client { IfOk result (λ c. c ≡ wanting wish.now variants.Sotw) }
    ensures refused { IfErr result (λ e. e ≡ OutOfMemory) }
{
    let node_id = String::from_str(alloc, NODE_ID)?;
    let cluster = String::from_str(alloc, wish.cluster)?;
    let mut client = SotwClient::new(alloc, node_id, cluster);
    client.change(alloc, wish.kind, wish.names)?;
    Ok(client)
}

// A state-of-the-world client on a new stream, with its requests.
fn open_sotw(
    alloc: Global,
    wish: &Subscription<'_>,
) -> Result<(SotwClient<Marked, Up>, Vec<DiscoveryRequest>), Refusal>
    ensures client { IfOk result (λ r. r.0 ≡ begun (wanting wish.now variants.Sotw)) }
    ensures requests { IfOk result (λ r. r.1.items ≡ first_requests (sotw_first (wanting wish.now variants.Sotw)) (wanting wish.now variants.Sotw) false types) }
    ensures refused { IfErr result (λ e. e ≡ OutOfMemory) }
{
    let client = wanting_sotw(alloc, wish)?;
    match client.connect(alloc) {
        Ok(opened) => Ok(opened),
        Err(_) => Err(Refusal::OutOfMemory),
    }
}

// A delta client that wants the names, and has no stream.
fn wanting_delta(
    alloc: Global,
    wish: &Subscription<'_>,
) -> Result<DeltaClient<Marked, Down>, Refusal>
    ensures client { IfOk result (λ c. c ≡ wanting wish.now variants.Delta) }
    ensures refused { IfErr result (λ e. e ≡ OutOfMemory) }
{
    let node_id = String::from_str(alloc, NODE_ID)?;
    let cluster = String::from_str(alloc, wish.cluster)?;
    let mut client = DeltaClient::new(alloc, node_id, cluster);
    client.change(alloc, wish.kind, wish.names, &[])?;
    Ok(client)
}

// A delta client on a new stream, with its requests.
fn open_delta(
    alloc: Global,
    wish: &Subscription<'_>,
) -> Result<(DeltaClient<Marked, Up>, Vec<DeltaDiscoveryRequest>), Refusal>
    ensures client { IfOk result (λ r. r.0 ≡ begun (wanting wish.now variants.Delta)) }
    ensures requests { IfOk result (λ r. r.1.items ≡ first_requests (delta_first (wanting wish.now variants.Delta)) (wanting wish.now variants.Delta) false types) }
    ensures refused { IfErr result (λ e. e ≡ OutOfMemory) }
{
    let client = wanting_delta(alloc, wish)?;
    match client.connect(alloc) {
        Ok(opened) => Ok(opened),
        Err(_) => Err(Refusal::OutOfMemory),
    }
}

// Adds the frame of a request with this text.
fn push_asking(bytes: &mut Vec<u8>, variant: StreamVariant, text: &str) -> Result<(), Refusal>
    ensures pushed { OnOk result (Fits variant text.now × (bytes.new.items ≡ bytes.old.items ++ frame_bytes (asking variant text.now))) }
    ensures refused { IfErr result (IsUntellable variant text.now) }
{
    push_frame(bytes, variant.request_kind(), text.as_bytes())
}

// The frames of requests, one after another.
fn sotw_frames(alloc: Global, requests: &Vec<DiscoveryRequest>) -> Result<Vec<u8>, Refusal>
    ensures frames { IfOk result (λ b. All (Fits variants.Sotw) (map sotw_text requests.now.items) × (b.items ≡ asked variants.Sotw (map sotw_text requests.now.items))) }
    ensures refused { IfErr result (λ e. (e ≡ OutOfMemory) ⊎ ((e ≡ FrameTooLong) × ¬ All (Fits variants.Sotw) (map sotw_text requests.now.items))) }
{
    let mut bytes = Vec::new(alloc);
    for request in requests {
        let text = request.write(alloc)?;
        push_asking(&mut bytes, StreamVariant::Sotw, text.as_str())?;
    }
    Ok(bytes)
}

fn delta_frames(alloc: Global, requests: &Vec<DeltaDiscoveryRequest>) -> Result<Vec<u8>, Refusal>
    ensures frames { IfOk result (λ b. All (Fits variants.Delta) (map delta_text requests.now.items) × (b.items ≡ asked variants.Delta (map delta_text requests.now.items))) }
    ensures refused { IfErr result (λ e. (e ≡ OutOfMemory) ⊎ ((e ≡ FrameTooLong) × ¬ All (Fits variants.Delta) (map delta_text requests.now.items))) }
{
    let mut bytes = Vec::new(alloc);
    for request in requests {
        let text = request.write(alloc)?;
        push_asking(&mut bytes, StreamVariant::Delta, text.as_str())?;
    }
    Ok(bytes)
}

/// A client that asks for the names, on a new stream, with the frames of its first requests.
pub(crate) fn open(
    alloc: Global,
    wish: &Subscription<'_>,
) -> Result<(StreamClient, Vec<u8>), Refusal>
    ensures variant { IfOk result (λ r. variant_of r.0 ≡ wish.now.variant) }
    ensures client { IfOk result (λ r. client_of r.0 ≡ first_client wish.now) }
    ensures frames { IfOk result (λ r. OpeningFits wish.now × (r.1.items ≡ opening wish.now)) }
    ensures refused { IfErr result (λ e. (e ≡ OutOfMemory) ⊎ ((e ≡ FrameTooLong) × ¬ OpeningFits wish.now)) }
{
    match wish.variant {
        StreamVariant::Sotw => {
            let (client, requests) = open_sotw(alloc, wish)?;
            let frames = sotw_frames(alloc, &requests)?;
            Ok((StreamClient::Sotw(client), frames))
        }
        StreamVariant::Delta => {
            let (client, requests) = open_delta(alloc, wish)?;
            let frames = delta_frames(alloc, &requests)?;
            Ok((StreamClient::Delta(client), frames))
        }
    }
}
