// A client's answers to the frames of responses.
ghost use Rattle.std.specs.Prelude.{◌≡◌, ◌++◌, IfOk, IfErr, is_some, string_bytes};
ghost use Rattle.xds_frames.specs.Decoding.{framed};
ghost use Rattle.xds_frames.specs.Frames.{frame_bytes};
ghost use Rattle.xds_message.specs.Responses.{response_of, delta_response_of};
ghost use Rattle.xds_client.specs.declared.subscription.StreamVariant.TheVariants as variants;
ghost use Rattle.xds_client.specs.Answering as specs;
ghost use Rattle.xds_client.specs.Answering.{SotwAnswers, SotwUnanswered, DeltaAnswers, DeltaUnanswered, Answers, IsUnanswered, answer_of};
ghost use Rattle.xds_client.specs.Lines.{answer_line, view_lines};
ghost use Rattle.xds_client.specs.Subscribing.{Fits, asking, sotw_text, delta_text};
ghost use Rattle.xds_client.specs.Turning.{IsMade, IsUntellable, GivesAnswer, client_of, variant_of};

use crate::printing::lines_of;
use crate::subscription::StreamVariant;
use std::alloc::Global;
use xds_cache::{Cache, DeltaClient, Marked, SotwClient, Up};
use xds_frames::{Decoder, Frame, write_frame};
use xds_message::{
    DeltaDiscoveryRequest, DeltaDiscoveryResponse, DiscoveryRequest, DiscoveryResponse,
};
use xds_resource::{Refusal, TypeName};

/// A client on its stream.
#[derive(Drop)]
pub(crate) enum StreamClient {
    Sotw(SotwClient<Marked, Up>),
    Delta(DeltaClient<Marked, Up>),
}

/// What comes of a response.
pub(crate) struct ResponseReply {
    /// The lines to print.
    pub(crate) lines: String,
    /// The frame of the request that answers it.
    pub(crate) frame: Vec<u8>,
}

// Written out: docs/PROVING.md, "Drops".
impl Drop for ResponseReply {
    fn drop(self) {
        let ResponseReply { lines: _, frame: _ } = self;
    }
}

// The reply to a response with this nonce: its lines, and the frame of a request with this text.
fn reply_of(
    alloc: Global,
    variant: StreamVariant,
    nonce: &str,
    refused: bool,
    text: &str,
    view: &Cache,
) -> Result<ResponseReply, Refusal>
    ensures lines { IfOk result (λ r. string_bytes r.lines ≡ answer_line refused nonce.now ++ view_lines variant view.now) }
    ensures frame { IfOk result (λ r. Fits variant text.now × (r.frame.items ≡ frame_bytes (asking variant text.now))) }
    ensures refused { IfErr result (IsUntellable variant text.now) }
{
    let frame = write_frame(alloc, variant.request_kind(), text.as_bytes())?;
    let lines = lines_of(alloc, variant, nonce, refused, view)?;
    Ok(ResponseReply { lines, frame })
}

// The reply to a response that the client answers with the request.
fn sotw_reply(
    alloc: Global,
    client: &SotwClient<Marked, Up>,
    kind: TypeName,
    response: &DiscoveryResponse,
    request: &DiscoveryRequest,
) -> Result<ResponseReply, Refusal>
    ensures ok { IfOk result (λ r. Fits variants.Sotw (sotw_text request.now) × IsMade variants.Sotw kind (answer_of client.now (response_of response.now).nonce (is_some request.now.error_detail) (sotw_text request.now)) r) }
    ensures refused { IfErr result (IsUntellable variants.Sotw (sotw_text request.now)) }
{
    let text = request.write(alloc)?;
    let nonce = response.nonce.as_str();
    let refused = request.error_detail.is_some();
    let view = client.view(kind);
    reply_of(
        alloc,
        StreamVariant::Sotw,
        nonce,
        refused,
        text.as_str(),
        view,
    )
}

fn delta_reply(
    alloc: Global,
    client: &DeltaClient<Marked, Up>,
    kind: TypeName,
    response: &DeltaDiscoveryResponse,
    request: &DeltaDiscoveryRequest,
) -> Result<ResponseReply, Refusal>
    ensures ok { IfOk result (λ r. Fits variants.Delta (delta_text request.now) × IsMade variants.Delta kind (answer_of client.now (delta_response_of response.now).nonce (is_some request.now.error_detail) (delta_text request.now)) r) }
    ensures refused { IfErr result (IsUntellable variants.Delta (delta_text request.now)) }
{
    let text = request.write(alloc)?;
    let nonce = response.nonce.as_str();
    let refused = request.error_detail.is_some();
    let view = client.view(kind);
    reply_of(
        alloc,
        StreamVariant::Delta,
        nonce,
        refused,
        text.as_str(),
        view,
    )
}

// What comes of a response's text. After an `Err` nothing is known of the client, which ends then.
fn answer_sotw(
    alloc: Global,
    client: &mut SotwClient<Marked, Up>,
    kind: TypeName,
    text: &[u8],
) -> Result<ResponseReply, Refusal>
    ensures ok { IfOk result (λ r. (a : specs.Answer) × SotwAnswers client.old text.now a × Fits variants.Sotw a.text × (client.new ≡ a.left) × IsMade variants.Sotw kind a r) }
    ensures refused { IfErr result (SotwUnanswered client.old text.now) }
{
    let response = DiscoveryResponse::read(alloc, text)?;
    let request = client.receive(alloc, &response)?;
    sotw_reply(alloc, client, kind, &response, &request)
}

fn answer_delta(
    alloc: Global,
    client: &mut DeltaClient<Marked, Up>,
    kind: TypeName,
    text: &[u8],
) -> Result<ResponseReply, Refusal>
    ensures ok { IfOk result (λ r. (a : specs.Answer) × DeltaAnswers client.old text.now a × Fits variants.Delta a.text × (client.new ≡ a.left) × IsMade variants.Delta kind a r) }
    ensures refused { IfErr result (DeltaUnanswered client.old text.now) }
{
    let response = DeltaDiscoveryResponse::read(alloc, text)?;
    let request = client.receive(alloc, &response)?;
    delta_reply(alloc, client, kind, &response, &request)
}

impl StreamClient {
    fn variant(&self) -> StreamVariant
        ensures { result ≡ variant_of self.now }
    {
        match self {
            StreamClient::Sotw(_) => StreamVariant::Sotw,
            StreamClient::Delta(_) => StreamVariant::Delta,
        }
    }

    // What comes of the frame of a response.
    fn answer(
        &mut self,
        alloc: Global,
        kind: TypeName,
        frame: Frame<'_>,
    ) -> Result<ResponseReply, Refusal>
        ensures ok { IfOk result (λ r. (a : specs.Answer) × Answers (variant_of self.old) (client_of self.old) (framed frame.entry) a × (client_of self.new ≡ a.left) × IsMade (variant_of self.old) kind a r) }
        ensures variant { variant_of self.new ≡ variant_of self.old }
        ensures refused { IfErr result (IsUnanswered (variant_of self.old) (client_of self.old) (framed frame.entry)) }
    {
        if !self.variant().is_response(frame.kind) {
            return Err(Refusal::WrongVariant);
        }
        match self {
            StreamClient::Sotw(client) => answer_sotw(alloc, client, kind, frame.text),
            StreamClient::Delta(client) => answer_delta(alloc, client, kind, frame.text),
        }
    }

    /// What comes of the next response, if a whole frame is there.
    pub(crate) fn answer_next(
        &mut self,
        alloc: Global,
        kind: TypeName,
        decoder: &mut Decoder,
    ) -> Result<Option<ResponseReply>, Refusal>
        ensures gives { GivesAnswer (variant_of self.old) kind (client_of self.old) decoder.old result (client_of self.new) decoder.new }
        ensures variant { variant_of self.new ≡ variant_of self.old }
    {
        match decoder.next()? {
            Some(frame) => Ok(Some(self.answer(alloc, kind, frame)?)),
            None => Ok(None),
        }
    }
}
