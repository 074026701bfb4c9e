// What requests at an operator's port say of a token.
ghost use Rattle.std.specs.Prelude.{◌≡◌, ◌≢◌, List, ℕ, Some, Err, option_map, string_bytes, IfOk, IfErr, IfSome, IfNone};
ghost use Rattle.xds_machine.specs.Doors.{bearer};
ghost use Rattle.xds_machine.specs.Bearing.{HasNoToken, line_in, token_in, token_of};

use crate::door::bearer;
use crate::files::FileFault;
use std::alloc::Global;
use std::fs::File;
use std::io::Read;
use std::rt::Files;
use std::str;
use xds_resource::Refusal;

// As many bytes of the file of a token as are looked at.
const MOST_TOKEN: usize = 4_096;

/// Why a file gives no token.
#[derive(Clone, Copy)]
pub enum NoBearer {
    /// It can't be opened or read.
    File(FileFault),
    /// Its first line is empty, isn't UTF-8, or doesn't end within 4,096 bytes.
    NoToken,
    /// There is no memory.
    Refused(Refusal),
}

/// What requests at the operator's port say: the token that is the first line of a file, behind the word `Bearer`.
pub fn bearer_in<R>(rt: &R, alloc: Global, file: &str) -> Result<String, NoBearer>
where
    R: Files<File = File>,
{
    let mut opened = match File::open(rt, file) {
        Ok(opened) => opened,
        Err(error) => return Err(NoBearer::File(FileFault::of(error.kind()))),
    };
    let mut bytes = [0; MOST_TOKEN];
    let count = match opened.read(&mut bytes) {
        Ok(count) => count,
        Err(error) => return Err(NoBearer::File(FileFault::of(error.kind()))),
    };
    bearer_of(alloc, &bytes[..count.min(MOST_TOKEN)])
}

// The same by the bytes of the file that are looked at.
fn bearer_of(alloc: Global, bytes: &[u8]) -> Result<String, NoBearer>
    ensures bearer { IfOk result (λ t. (token : List ℕ) × (token_in bytes.now ≡ Some token) × (string_bytes t ≡ bearer token)) }
    ensures none { result ≡ Err NoBearer.NoToken → HasNoToken bytes.now }
{
    match token_in(bytes) {
        Some(token) => bearer_by(alloc, token),
        None => Err(NoBearer::NoToken),
    }
}

// What requests say of a token.
fn bearer_by(alloc: Global, token: &str) -> Result<String, NoBearer>
    ensures bearer { IfOk result (λ t. string_bytes t ≡ bearer token.now) }
    ensures refused { IfErr result (λ e. e ≢ NoBearer.NoToken) }
{
    match bearer(alloc, token) {
        Ok(bearer) => Ok(bearer),
        Err(refusal) => Err(NoBearer::Refused(refusal)),
    }
}

// The first line of a text, without what ends it, where it isn't empty, and is whole in the bytes that are looked at.
fn token_in(bytes: &[u8]) -> Option<&str>
    ensures token { IfSome result (λ t. token_in bytes.now ≡ Some t.now) }
    ensures none { IfNone result (HasNoToken bytes.now) }
{
    match str::from_utf8(bytes) {
        Ok(text) => token_at(text),
        Err(_) => None,
    }
}

fn token_at(text: &str) -> Option<&str>
    ensures { option_map (λ t. t.now) result ≡ token_in text.now }
{
    match line_in(text) {
        Some(line) => token_of(line),
        None => None,
    }
}

// The first line of a text, where it is whole in the bytes that are looked at.
fn line_in(text: &str) -> Option<&str>
    ensures { option_map (λ t. t.now) result ≡ line_in text.now }
{
    match text.split_once('\n') {
        Some((line, _)) => Some(line),
        None if text.len() < MOST_TOKEN => Some(text),
        None => None,
    }
}

// A line without the white space around it, unless nothing is left.
fn token_of(line: &str) -> Option<&str>
    ensures { option_map (λ t. t.now) result ≡ token_of line.now }
{
    let token = line.trim();
    if token.is_empty() { None } else { Some(token) }
}
