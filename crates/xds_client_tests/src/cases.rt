// Clients from what they ask for and the bytes that come to what they say and print.
use crate::ran::{Device, Ends, WELL, bytes_of, run};
use std::alloc::Global;
use std::str;
use std::test::Fail;
use xds_cases::cases::{Outcome, hold_stories, replaced, told, words_of};
use xds_client::{StreamVariant, Subscription};
use xds_frames::{Decoder, Frame};
use xds_resource::{Refusal, TypeName};

// Sizes of the pieces that the input comes in.
const SIZES: [usize; 6] = [1, 2, 3, 5, 101, 102];

// The answer, each frame that is written, and the lines that are printed, whatever pieces the input
// comes in. A story gives the variant, the type, how many responses are wanted and the names, and
// then the input, an item a line.
struct Client;

impl Outcome for Client {
    fn of(alloc: Global, given: &str) -> Result<String, Fail> {
        let (asked, items) = given.split_once('\n').ok_or("a case has no input")?;
        let asked = words_of(alloc, asked)?;
        let input = bytes_of(alloc, items)?;
        let whole = came_to(alloc, asked.as_slice(), input.as_slice(), usize::MAX)?;
        for size in SIZES {
            comes_again(
                alloc,
                asked.as_slice(),
                input.as_slice(),
                size,
                whole.as_str(),
            )?;
        }
        Ok(whole)
    }
}

// Fails unless pieces of this size come to the same.
fn comes_again(
    alloc: Global,
    words: &[String],
    input: &[u8],
    size: usize,
    whole: &str,
) -> Result<(), Fail> {
    let cut = came_to(alloc, words, input, size)?;
    if cut.as_str() == whole {
        return Ok(());
    }
    Err(Fail::new(format_args!("{cut} and not {whole}, in pieces of {size}")))
}

// What the words of a case ask for.
fn wish_of(words: &[String]) -> Option<Subscription<'_>> {
    let variant = match words.first()?.as_str() {
        "sotw" => StreamVariant::Sotw,
        "delta" => StreamVariant::Delta,
        _ => return None,
    };
    Some(Subscription {
        variant,
        kind: TypeName::from_word(words.get(1)?.as_str())?,
        cluster: "",
        names: words.get(3..)?,
        responses: words.get(2)?.parse::<u16>().ok()?,
    })
}

fn came_to(alloc: Global, words: &[String], input: &[u8], size: usize) -> Result<String, Fail> {
    let wish = wish_of(words).ok_or("a case asks for nothing")?;
    let reader = Device { size, failing: 0 };
    let mut ends = Ends::new(alloc, input, reader, WELL, WELL);
    let answer = run(alloc, &wish, &mut ends);
    told_of(alloc, answer, ends.said(), ends.printed())
}

fn told_of(
    alloc: Global,
    answer: Result<(), Refusal>,
    said: &[u8],
    printed: &[u8],
) -> Result<String, Fail> {
    let mut text = told(alloc, ok_or(alloc, answer))?;
    push_frames(alloc, said, &mut text)?;
    push_lines(alloc, printed, &mut text)?;
    Ok(text)
}

// `ok`, or the refusal.
fn ok_or(alloc: Global, answer: Result<(), Refusal>) -> Result<String, Refusal> {
    answer?;
    Ok(String::from_str(alloc, "ok")?)
}

fn push_frames(alloc: Global, bytes: &[u8], text: &mut String) -> Result<(), Refusal> {
    let mut decoder = Decoder::new(alloc);
    decoder.feed(bytes)?;
    push_each(alloc, &mut decoder, text)
}

fn push_each(alloc: Global, decoder: &mut Decoder, text: &mut String) -> Result<(), Refusal> {
    for _ in 0..u64::MAX {
        match decoder.next()? {
            Some(frame) => push_frame(alloc, frame, text)?,
            None => return decoder.finish(),
        }
    }
    Ok(())
}

fn push_frame(alloc: Global, frame: Frame<'_>, text: &mut String) -> Result<(), Refusal> {
    let number = frame.kind.number();
    let body = str::from_utf8(frame.text).ok().ok_or(Refusal::NotJson)?;
    text.push_str(format!(in alloc; "\n{number} {body}")?.as_str())?;
    Ok(())
}

// Adds the lines, with `|` at the end of each, in parentheses.
fn push_lines(alloc: Global, printed: &[u8], text: &mut String) -> Result<(), Refusal> {
    let lines = str::from_utf8(printed).ok().ok_or(Refusal::NotJson)?;
    let lines = replaced(alloc, lines, "\n", "|")?;
    text.push_str("\n(")?;
    text.push_str(lines.as_str())?;
    text.push_str(")")?;
    Ok(())
}

// rule: accept-reject
#[test]
fn state_of_the_world_is_answered(rt: HostRuntime) -> Result<(), Fail> {
    hold_stories::<Client, HostRuntime>(
        &rt,
        r#"sotw cluster 1 *
2 {"nonce":"1","typeUrl":"CDS","versionInfo":"1.0"}
 => ok
1 {"node":{"id":"xds"},"resourceNames":["*"],"typeUrl":"CDS"}
1 {"resourceNames":["*"],"responseNonce":"1","typeUrl":"CDS","versionInfo":"1.0"}
(taken 1|)

sotw route 1 q
2 {"nonce":"1","resources":[{"@type":"RDS","name":"q"}],"typeUrl":"RDS","versionInfo":"1.1.named"}
 => ok
1 {"node":{"id":"xds"},"resourceNames":["q"],"typeUrl":"RDS"}
1 {"resourceNames":["q"],"responseNonce":"1","typeUrl":"RDS","versionInfo":"1.1.named"}
(taken 1|
    {"@type":"RDS","name":"q"}|)

sotw cluster 1 *
2 {"nonce":"1","resources":[{"@type":"CDS","name":"a","reject":true}],"typeUrl":"CDS",
    "versionInfo":"1.1"}
 => ok
1 {"node":{"id":"xds"},"resourceNames":["*"],"typeUrl":"CDS"}
1 {"errorDetail":{"code":3,"message":"test: a"},"resourceNames":["*"],"responseNonce":"1",
    "typeUrl":"CDS"}
(refused 1|)

sotw cluster 2 *
2 {"nonce":"1","resources":[{"x":1,"@type":"CDS","name":"b"},{"@type":"CDS","name":"a"}],
    "typeUrl":"CDS","versionInfo":"1.2"}
2 {"nonce":"2","resources":[{"@type":"CDS","name":"a","reject":true}],"typeUrl":"CDS",
    "versionInfo":"1.3"}
 => ok
1 {"node":{"id":"xds"},"resourceNames":["*"],"typeUrl":"CDS"}
1 {"resourceNames":["*"],"responseNonce":"1","typeUrl":"CDS","versionInfo":"1.2"}
1 {"errorDetail":{"code":3,"message":"test: a"},"resourceNames":["*"],"responseNonce":"2",
    "typeUrl":"CDS","versionInfo":"1.2"}
(taken 1|
    {"@type":"CDS","name":"a"}|
    {"@type":"CDS","name":"b","x":1}|
    refused 2|
    {"@type":"CDS","name":"a"}|
    {"@type":"CDS","name":"b","x":1}|)

sotw cluster 1 b a b
2 {"nonce":"7","typeUrl":"CDS"}
2 {"nonce":"8","typeUrl":"CDS"}
 => ok
1 {"node":{"id":"xds"},"resourceNames":["a","b"],"typeUrl":"CDS"}
1 {"resourceNames":["a","b"],"responseNonce":"7","typeUrl":"CDS"}
(taken 7|)

sotw cluster 0 a
00000000
 => ok
1 {"node":{"id":"xds"},"resourceNames":["a"],"typeUrl":"CDS"}
()

sotw cluster 0
00000000
 => ok
()"#,
    )
}

// rule: accept-reject
#[test]
fn delta_is_answered(rt: HostRuntime) -> Result<(), Fail> {
    hold_stories::<Client, HostRuntime>(
        &rt,
        r#"delta cluster 1 *
4 {"nonce":"1","resources":[{"name":"a","resource":{"@type":"CDS","name":"a"},"version":"1-1"}],
    "systemVersionInfo":"1.1","typeUrl":"CDS"}
 => ok
3 {"node":{"id":"xds"},"resourceNamesSubscribe":["*"],"typeUrl":"CDS"}
3 {"responseNonce":"1","typeUrl":"CDS"}
(taken 1|
    1-1 {"@type":"CDS","name":"a"}|)

delta cluster 1 m
4 {"nonce":"1","removedResources":["m"],"systemVersionInfo":"1.0","typeUrl":"CDS"}
 => ok
3 {"node":{"id":"xds"},"resourceNamesSubscribe":["m"],"typeUrl":"CDS"}
3 {"responseNonce":"1","typeUrl":"CDS"}
(taken 1|)

delta cluster 2 *
4 {"nonce":"1","resources":[{"name":"b","resource":{"@type":"CDS","name":"b"},"version":"1-1"}],
    "typeUrl":"CDS"}
4 {"nonce":"2","removedResources":["b"],
    "resources":[{"name":"a","resource":{"@type":"CDS","name":"a","reject":true},"version":"2-1"}],
    "typeUrl":"CDS"}
 => ok
3 {"node":{"id":"xds"},"resourceNamesSubscribe":["*"],"typeUrl":"CDS"}
3 {"responseNonce":"1","typeUrl":"CDS"}
3 {"errorDetail":{"code":3,"message":"test: a"},"responseNonce":"2","typeUrl":"CDS"}
(taken 1|
    1-1 {"@type":"CDS","name":"b"}|
    refused 2|
    1-1 {"@type":"CDS","name":"b"}|)"#,
    )
}

#[test]
fn clients_are_refused(rt: HostRuntime) -> Result<(), Fail> {
    hold_stories::<Client, HostRuntime>(
        &rt,
        r#"sotw cluster 2 *
2 {"nonce":"1","typeUrl":"CDS","versionInfo":"1.0"}
 => 18 Truncated
1 {"node":{"id":"xds"},"resourceNames":["*"],"typeUrl":"CDS"}
1 {"resourceNames":["*"],"responseNonce":"1","typeUrl":"CDS","versionInfo":"1.0"}
(taken 1|)

sotw cluster 1 *
0000006202
 => 18 Truncated
1 {"node":{"id":"xds"},"resourceNames":["*"],"typeUrl":"CDS"}
()

sotw cluster 1 *
00000000
 => 15 EmptyFrame
1 {"node":{"id":"xds"},"resourceNames":["*"],"typeUrl":"CDS"}
()

sotw cluster 1 *
01000001
 => 16 FrameTooLong
1 {"node":{"id":"xds"},"resourceNames":["*"],"typeUrl":"CDS"}
()

sotw cluster 1 *
0000000309
 => 17 UnknownKind
1 {"node":{"id":"xds"},"resourceNames":["*"],"typeUrl":"CDS"}
()

sotw cluster 1 *
4 {"nonce":"1","typeUrl":"CDS"}
 => 13 WrongVariant
1 {"node":{"id":"xds"},"resourceNames":["*"],"typeUrl":"CDS"}
()

sotw cluster 1 *
5 {}
 => 13 WrongVariant
1 {"node":{"id":"xds"},"resourceNames":["*"],"typeUrl":"CDS"}
()

sotw cluster 1 *
2 {"nonce"
 => 1 NotJson
1 {"node":{"id":"xds"},"resourceNames":["*"],"typeUrl":"CDS"}
()

sotw cluster 1 *
2 []
 => 7 BadMessage
1 {"node":{"id":"xds"},"resourceNames":["*"],"typeUrl":"CDS"}
()

sotw cluster 1 *
2 {"nonce":"1","typeUrl":"RDS"}
 => 7 BadMessage
1 {"node":{"id":"xds"},"resourceNames":["*"],"typeUrl":"CDS"}
()

sotw cluster 1
2 {"nonce":"1","typeUrl":"CDS"}
 => 7 BadMessage
()

delta cluster 1
4 {"nonce":"1","typeUrl":"CDS"}
 => 7 BadMessage
()

delta cluster 1 *
3 {}
 => 13 WrongVariant
3 {"node":{"id":"xds"},"resourceNamesSubscribe":["*"],"typeUrl":"CDS"}
()

delta cluster 1 *
2 {"nonce":"1","typeUrl":"CDS"}
 => 13 WrongVariant
3 {"node":{"id":"xds"},"resourceNamesSubscribe":["*"],"typeUrl":"CDS"}
()

delta cluster 1 *
4 {"nonce":"1","typeUrl":"LDS"}
 => 7 BadMessage
3 {"node":{"id":"xds"},"resourceNamesSubscribe":["*"],"typeUrl":"CDS"}
()"#,
    )
}
