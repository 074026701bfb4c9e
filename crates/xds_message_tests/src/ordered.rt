// What is read as JSON in order, what is found in it, and what is written of it.
use json::{Scratch, Value};
use std::alloc::Global;
use std::test::Fail;
use xds_cases::cases::{Outcome, first_word, hold};
use xds_json::{find_member, read_ordered, text_in, text_of, texts_in, whole_number};

// How deep the texts of the cases may nest.
const DEPTH: usize = 3;

fn or_none(alloc: Global, text: Option<String>) -> Result<String, Fail> {
    match text {
        Some(text) => Ok(text),
        None => Ok(String::from_str(alloc, "none")?),
    }
}

// What is written of a text.
struct WrittenAgain;

impl Outcome for WrittenAgain {
    fn of(alloc: Global, given: &str) -> Result<String, Fail> {
        or_none(alloc, written(alloc, given))
    }
}

fn written(alloc: Global, text: &str) -> Option<String> {
    let mut scratch = Scratch::new(alloc);
    let value = read_ordered(alloc, text, &mut scratch, DEPTH)?;
    text_of(alloc, &value, 0).ok()
}

#[test]
fn json_in_order_is_written_again(rt: HostRuntime) -> Result<(), Fail> {
    hold::<WrittenAgain, HostRuntime>(
        &rt,
        r#"{"a":[true,null,"x"],"b":1} => {"a":[true,null,"x"],"b":1}
{"b":1,"a":[true,null,"x"]} => {"a":[true,null,"x"],"b":1}
{"d":1,"b":2,"c":3,"a":4} => {"a":4,"b":2,"c":3,"d":1}
 { "b" : [ ] , "a" : { } }  => {"a":{},"b":[]}
"\u0061\/\u000a" => "a/\n"
{"\u0062":1,"a":2} => {"a":2,"b":1}
0 => 0
18446744073709551615 => 18446744073709551615
false => false
[[[]]] => [[[]]]
{"a":{"a":[]}} => {"a":{"a":[]}}"#,
    )
}

#[test]
fn other_texts_are_not_in_order(rt: HostRuntime) -> Result<(), Fail> {
    hold::<WrittenAgain, HostRuntime>(
        &rt,
        r#"{"a":1,"a":2} => none
{"a":1,"b":2,"\u0061":3} => none
-1 => none
01 => none
1.0 => none
1e2 => none
18446744073709551616 => none
[[[[]]]] => none
{"a":{"a":[{}]}} => none
{"a":1,} => none
{"a"} => none
[1,2 => none
1 2 => none
 => none"#,
    )
}

// What the member of a name is, of the JSON behind the name.
struct MemberTold;

impl Outcome for MemberTold {
    fn of(alloc: Global, given: &str) -> Result<String, Fail> {
        let (name, text) = first_word(given)?;
        or_none(alloc, looked(alloc, name, text))
    }
}

fn looked(alloc: Global, name: &str, text: &str) -> Option<String> {
    let mut scratch = Scratch::new(alloc);
    let value = read_ordered(alloc, text, &mut scratch, DEPTH)?;
    told(alloc, find_member(&value, name)?)
}

fn told(alloc: Global, value: &Value<'_>) -> Option<String> {
    if let Some(text) = text_in(value) {
        return format!(in alloc; "text {text}").ok();
    }
    if let Some(number) = whole_number(value) {
        return format!(in alloc; "number {number}").ok();
    }
    let texts = texts_in(alloc, value)?;
    let count = texts.len();
    format!(in alloc; "{count} texts").ok()
}

#[test]
fn members_are_found(rt: HostRuntime) -> Result<(), Fail> {
    hold::<MemberTold, HostRuntime>(
        &rt,
        r#"b {"c":"x","b":"y","a":"z"} => text y
a {"\u0061":"z"} => text z
b {"a":1,"b":18446744073709551615} => number 18446744073709551615
b {"b":["x","y"]} => 2 texts
b {"b":[]} => 0 texts
b {"b":["x",1]} => none
b {"b":{}} => none
b {"b":null} => none
b {"a":"x","ba":"y"} => none
b ["b"] => none"#,
    )
}
