// Resources, and the types and refusals that tell of them.
use serde_json::Value;
use std::alloc::Global;
use std::test::Fail;
use xds_cases::cases::{Outcome, first_word, hold, told};
use xds_resource::{
    AnyResource, Cluster, Endpoint, Listener, Refusal, Resource, ResourceType, Route, Secret,
    TypeName,
};

// Name and body of the resource that a text is, after the word of its type.
struct ParsedText;

impl Outcome for ParsedText {
    fn of(alloc: Global, given: &str) -> Result<String, Fail> {
        let (word, text) = first_word(given)?;
        let parsed = match TypeName::from_word(word).ok_or("no type")? {
            TypeName::Cluster => parsed::<Cluster>(alloc, text),
            TypeName::Endpoint => parsed::<Endpoint>(alloc, text),
            TypeName::Listener => parsed::<Listener>(alloc, text),
            TypeName::Route => parsed::<Route>(alloc, text),
            TypeName::Secret => parsed::<Secret>(alloc, text),
        };
        Ok(told(alloc, parsed)?)
    }
}

fn parsed<T: ResourceType>(alloc: Global, text: &str) -> Result<String, Refusal> {
    let resource = Resource::<T>::parse(alloc, text)?;
    seen(alloc, resource.name(), resource.body())
}

fn seen(alloc: Global, name: &str, body: &str) -> Result<String, Refusal> {
    let mut seen = String::from_str(alloc, name)?;
    seen.push_str(" ")?;
    seen.push_str(body)?;
    Ok(seen)
}

#[test]
fn the_first_fault_of_a_text_is_told(rt: HostRuntime) -> Result<(), Fail> {
    hold::<ParsedText, HostRuntime>(
        &rt,
        r#"cluster {"@type":"CDS", "x": [ 1, -2 ] , "name":"\u0061"}
     => a {"@type":"CDS","name":"a","x":[1,-2]}
cluster {"@type":"CDS","name":"a","x":18446744073709551615}
     => a {"@type":"CDS","name":"a","x":18446744073709551615}
cluster {"@type":"CDS","name":"a","x":-9223372036854775808}
     => a {"@type":"CDS","name":"a","x":-9223372036854775808}
cluster {"@type":"CDS","name":"**"} => ** {"@type":"CDS","name":"**"}
cluster {"@type":"CDS","name":"a","x":1.5} => 3 NotWhole
cluster {"@type":"CDS","name":"a","x":1e2} => 3 NotWhole
cluster {"@type":"CDS","name":"a","x":18446744073709551616} => 3 NotWhole
cluster {"@type":"CDS","name":"a","x":-9223372036854775809} => 3 NotWhole
cluster {"@type":"CDS","name":7,"x":0.5} => 3 NotWhole
cluster {"@type":"CDS","name":"*"} => 5 BadName
cluster {"@type":"CDS","name":""} => 5 BadName
cluster {"@type":"CDS","name":null} => 5 BadName
cluster {"@type":"CDS"} => 5 BadName
cluster {"@type":"CDS","name":7} => 4 BadResource
cluster {"@type":"CDS","name":"a","@type":"x"} => 4 BadResource
cluster {"name":"a"} => 4 BadResource
cluster {} => 4 BadResource
cluster [] => 4 BadResource
cluster 7 => 4 BadResource
cluster "a" => 4 BadResource
cluster null => 4 BadResource
listener {"@type":"CDS","name":"a"} => 4 BadResource
cluster {"@type":"CDS","name":"a"}} => 1 NotJson
route  => 1 NotJson
secret {"name":"s", "@type":"SDS"} => s {"@type":"SDS","name":"s"}
secret {"@type":"RDS","name":"s"} => 4 BadResource
endpoint {"@type":"EDS","clusterName":"a"} => a {"@type":"EDS","clusterName":"a"}
endpoint {"@type":"EDS","cluster_name":"b"} => b {"@type":"EDS","cluster_name":"b"}
endpoint {"@type":"EDS","clusterName":"a","cluster_name":"b"}
     => a {"@type":"EDS","clusterName":"a","cluster_name":"b"}
endpoint {"@type":"EDS","clusterName":"a","cluster_name":7}
     => a {"@type":"EDS","clusterName":"a","cluster_name":7}
endpoint {"@type":"EDS","clusterName":null,"cluster_name":"b"} => 5 BadName
endpoint {"@type":"EDS","clusterName":7,"cluster_name":"b"} => 4 BadResource
endpoint {"@type":"EDS","name":"a"} => 5 BadName"#,
    )
}

#[test]
fn depth_names_and_texts_have_limits(rt: HostRuntime) -> Result<(), Fail> {
    hold::<ParsedText, HostRuntime>(
        &rt,
        r#"cluster {"@type":"CDS","name":"a","x":<[*99><]*99>}
     => a {"@type":"CDS","name":"a","x":<[*99><]*99>}
cluster {"@type":"CDS","name":"a","x":<[*100><]*100>} => 2 TooDeep
cluster {"@type":"CDS","name":"a","x":<[*126><]*126>} => 2 TooDeep
cluster {"@type":"CDS","name":"a","x":<[*127><]*127>} => 1 NotJson
cluster {"@type":"CDS","name":"a","x":<[*10000><]*10000>} => 1 NotJson
cluster {"@type":"CDS","name":"<n*1024>"} => <n*1024> {"@type":"CDS","name":"<n*1024>"}
cluster {"@type":"CDS","name":"<n*1025>"} => 5 BadName
cluster {"@type":"CDS","name":"<é*512>"} => <é*512> {"@type":"CDS","name":"<é*512>"}
cluster {"@type":"CDS","name":"<é*513>"} => 5 BadName
cluster {"@type":"CDS","name":"<🦀*256>"} => <🦀*256> {"@type":"CDS","name":"<🦀*256>"}
cluster {"@type":"CDS","name":"<🦀*257>"} => 5 BadName
cluster {"@type":"CDS","name":"a"}< *1048502> => a {"@type":"CDS","name":"a"}
cluster {"@type":"CDS","name":"a"}< *1048503> => 6 TooLong"#,
    )
}

// The same of the value that a text spells, which is judged by its compact text.
struct FromValue;

impl Outcome for FromValue {
    fn of(alloc: Global, given: &str) -> Result<String, Fail> {
        let value = Value::from_str(alloc, given)?;
        Ok(told(alloc, from_value(alloc, value))?)
    }
}

fn from_value(alloc: Global, value: Value) -> Result<String, Refusal> {
    let resource = Resource::<Cluster>::from_value(alloc, value)?;
    let copy = resource.try_copy(alloc)?;
    let again = Resource::<Cluster>::from_value(alloc, copy.value(alloc)?)?;
    seen(alloc, again.name(), again.body())
}

#[test]
fn the_first_fault_of_a_value_is_told(rt: HostRuntime) -> Result<(), Fail> {
    hold::<FromValue, HostRuntime>(
        &rt,
        r#"{"name":"a", "@type":"CDS"} => a {"@type":"CDS","name":"a"}
{"@type":"CDS","name":"a","x":"<y*1048495>"} => a {"@type":"CDS","name":"a","x":"<y*1048495>"}
{"@type":"CDS","name":"a","x":"<y*1048496>"} => 6 TooLong
{"@type":"CDS","name":"","x":"<y*1048497>"} => 6 TooLong
{"@type":"CDS","name":"a","x":<[*100>0.5<]*100>} => 3 NotWhole
{"@type":"EDS","clusterName":"a"} => 4 BadResource"#,
    )
}

// Type, name and body of the resource that a text is, whatever its type.
struct AnyText;

impl Outcome for AnyText {
    fn of(alloc: Global, given: &str) -> Result<String, Fail> {
        Ok(told(alloc, parsed_as_any(alloc, given))?)
    }
}

fn parsed_as_any(alloc: Global, text: &str) -> Result<String, Refusal> {
    let resource = AnyResource::parse(alloc, text)?.try_copy(alloc)?;
    let word = resource.type_name().word();
    let name = seen(alloc, resource.name(), resource.body())?;
    seen(alloc, word, name.as_str())
}

#[test]
fn the_type_tells_which_resource_it_is(rt: HostRuntime) -> Result<(), Fail> {
    hold::<AnyText, HostRuntime>(
        &rt,
        r#"{"@type":"CDS","name":"a"} => cluster a {"@type":"CDS","name":"a"}
{"@type":"EDS","clusterName":"a"} => endpoint a {"@type":"EDS","clusterName":"a"}
{"@type":"LDS","name":"a"} => listener a {"@type":"LDS","name":"a"}
{"@type":"RDS","name":"a"} => route a {"@type":"RDS","name":"a"}
{"@type":"SDS","name":"s"} => secret s {"@type":"SDS","name":"s"}
{"@type":"type.googleapis.com/x.Y","name":"a"} => 4 BadResource
{"x":1.5} => 3 NotWhole
{ => 1 NotJson"#,
    )
}

// The row of the type that a word names.
struct RowOf;

impl Outcome for RowOf {
    fn of(alloc: Global, given: &str) -> Result<String, Fail> {
        let Some(type_name) = TypeName::from_word(given) else {
            return Ok(String::from_str(alloc, "none")?);
        };
        let url = type_name.url();
        let again = TypeName::from_url(url).ok_or("no type of this URL")?.word();
        let names = seen(alloc, type_name.name_field(), type_name.proto_name_field())?;
        let whole = if type_name.is_complete() {
            "complete"
        } else {
            "incomplete"
        };
        let end = seen(alloc, whole, type_name.rest_path())?;
        let start = seen(alloc, again, url)?;
        let rest = seen(alloc, names.as_str(), end.as_str())?;
        Ok(seen(alloc, start.as_str(), rest.as_str())?)
    }
}

#[test]
fn a_word_names_a_row_of_the_table(rt: HostRuntime) -> Result<(), Fail> {
    assert!(rt; TypeName::from_url("cluster").is_none());
    hold::<RowOf, HostRuntime>(
        &rt,
        r#"cluster => cluster CDS name name complete /v3/discovery:clusters
endpoint => endpoint EDS clusterName cluster_name incomplete /v3/discovery:endpoints
listener => listener LDS name name complete /v3/discovery:listeners
route => route RDS name name incomplete /v3/discovery:routes
secret => secret SDS name name incomplete /v3/discovery:secrets
CDS => none"#,
    )
}

// All of them, by their numbers.
const REFUSALS: &[Refusal] = &[
    Refusal::NotJson,
    Refusal::TooDeep,
    Refusal::NotWhole,
    Refusal::BadResource,
    Refusal::BadName,
    Refusal::TooLong,
    Refusal::BadMessage,
    Refusal::OutOfMemory,
    Refusal::NotFound,
    Refusal::CounterSpent,
    Refusal::BadStamp,
    Refusal::NoStream,
    Refusal::WrongVariant,
    Refusal::NonceSpent,
    Refusal::EmptyFrame,
    Refusal::FrameTooLong,
    Refusal::UnknownKind,
    Refusal::Truncated,
    Refusal::Device,
    Refusal::JournalFull,
    Refusal::BadScript,
    Refusal::BadTrace,
    Refusal::Gap,
    Refusal::BadGroup,
];

#[test]
fn refusals_print_number_and_name(rt: HostRuntime) -> Result<(), Fail> {
    let alloc = rt.alloc();
    let mut printed = String::new(alloc);
    for refusal in REFUSALS {
        printed.push_str(format!(in alloc; "{refusal} ")?.as_str())?;
    }
    let wanted = "1 NotJson 2 TooDeep 3 NotWhole 4 BadResource 5 BadName 6 TooLong 7 BadMessage \
         8 OutOfMemory 9 NotFound 10 CounterSpent 11 BadStamp 12 NoStream 13 WrongVariant \
         14 NonceSpent 15 EmptyFrame 16 FrameTooLong 17 UnknownKind 18 Truncated 19 Device \
         20 JournalFull 21 BadScript 22 BadTrace 23 Gap 24 BadGroup ";
    assert_eq!(rt; printed.as_str(), wanted);
    Ok(())
}
