// Parcels, and bytes that are none.
use crate::alone::outcome;
use std::alloc::Global;
use std::test::Fail;
use xds_flows::Parcel;
use xds_message::Batch;
use xds_resource::Refusal;

// Fails unless these bytes, as a parcel, are what is wanted.
fn tells(alloc: Global, bytes: &[u8], wanted: Result<(), Refusal>) -> Result<(), Fail> {
    let mut frame = Vec::new(alloc);
    frame.extend_from_slice(bytes)?;
    let parcel = Parcel { frame, last: true };
    if outcome(parcel.unpack(alloc)) == wanted {
        return Ok(());
    }
    Err(Fail::new(format_args!("{bytes:?}")))
}

#[test]
fn bytes_that_are_no_parcel_are_told(rt: HostRuntime) -> Result<(), Fail> {
    let alloc = rt.alloc();
    tells(alloc, b"\0\0\0\x03\x05{}", Ok(()))?;
    tells(alloc, b"", Err(Refusal::Truncated))?;
    tells(alloc, b"\0\0\0\x03\x05{", Err(Refusal::Truncated))?;
    tells(alloc, b"\0\0\0\0", Err(Refusal::EmptyFrame))?;
    tells(alloc, b"\x01\0\0\x01", Err(Refusal::FrameTooLong))?;
    tells(alloc, b"\0\0\0\x03\x06{}", Err(Refusal::UnknownKind))?;
    tells(alloc, b"\0\0\0\x03\x01{}", Err(Refusal::WrongVariant))?;
    tells(alloc, b"\0\0\0\x02\x05{", Err(Refusal::NotJson))?;
    tells(alloc, b"\0\0\0\x03\x05[]", Err(Refusal::BadMessage))
}

const BEFORE: &[u8] =
    b"{\"body\":{\"@type\":\"type.googleapis.com/envoy.config.cluster.v3.Cluster\",\
     \"altStatName\":\"";

const AFTER: &[u8] = b"\",\"name\":\"a\"},\"counter\":1,\"name\":\"a\",\
     \"typeUrl\":\"type.googleapis.com/envoy.config.cluster.v3.Cluster\",\"writer\":1},";

// Adds a write of a million bytes and some more.
fn push_write(text: &mut Vec<u8>, block: &[u8]) -> Result<(), Refusal> {
    text.extend_from_slice(BEFORE)?;
    text.extend_from_slice(block)?;
    text.extend_from_slice(AFTER)?;
    Ok(())
}

// The text of a batch of so many equal writes.
fn long(alloc: Global, count: usize) -> Result<Vec<u8>, Refusal> {
    let mut block = Vec::new(alloc);
    block.resize(1_000_000, b'x')?;
    let mut text = Vec::new(alloc);
    text.extend_from_slice(b"{\"writes\":[")?;
    for _ in 0..count {
        push_write(&mut text, block.as_slice())?;
    }
    text.pop();
    text.extend_from_slice(b"]}")?;
    Ok(text)
}

// Packs a batch of so many such writes.
fn packs(alloc: Global, count: usize) -> Result<(), Refusal> {
    let text = long(alloc, count)?;
    let batch = Batch::read(alloc, text.as_slice())?;
    let packed = Parcel::pack(alloc, &batch, true);
    drop(batch);
    outcome(packed)
}

#[test]
fn a_batch_may_be_too_long_for_a_parcel(rt: HostRuntime) -> Result<(), Fail> {
    assert!(rt; packs(rt.alloc(), 16) == Ok(()), "sixteen writes fit");
    assert!(rt;
        packs(rt.alloc(), 17) == Err(Refusal::FrameTooLong),
        "seventeen don't"
    );
    Ok(())
}
