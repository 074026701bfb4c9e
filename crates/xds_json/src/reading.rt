// From text to JSON in order, in one pass over the tokens.
ghost use Rattle.std.specs.Prelude.{◌≡◌, ◌<◌, ◌≤◌, length, Some, IfSome};
ghost use Rattle.json.specs.Tree.{depth as nesting, items_depth, members_depth};
ghost use Rattle.json.specs.Value.{value_view, items_view, members_view};
ghost use Rattle.serde_json.specs.Read.{read as reading, max_depth};
ghost use Rattle.xds_json.specs.Ordered.{IsOrdered, AreOrdered, AreInOrder, meaning, items_meaning, members_meaning};
ghost use Rattle.xds_json.specs.Placed.{IsPlace, placed};
ghost use Rattle.xds_json.specs.ReadsTo.{ReadsTo, ItemsReadTo, MembersReadTo};

use json::{Reader, Scratch, Token, Value};
use std::alloc::Global;
use std::cmp::Ordering;
use xds_resource::decimal_number;

// Before how many members one is put that comes out of order, at most.
const MAX_SHIFT: usize = 64;

/// The JSON that a text is, in order, and nested at most `depth` deep. None also where a number isn't whole and at least
/// 0 in its shortest decimal, where an object has a key twice, or its members are far out of order, and where there is
/// no memory.
pub fn read_ordered<'a>(
    alloc: Global,
    text: &'a str,
    scratch: &'a mut Scratch,
    depth: usize,
) -> Option<Value<'a>>
    requires { depth ≤ max_depth }
    ensures reads { IfSome result (λ v. reading text.now ≡ Some (meaning (value_view v))) }
    ensures ordered { IfSome result (λ v. IsOrdered (value_view v)) }
    ensures nests { IfSome result (λ v. nesting (value_view v) ≤ depth) }
{
    let Ok(mut reader) = Reader::new(text, scratch) else {
        return None;
    };
    let value = read(alloc, &mut reader, depth)?;
    if reader.next().is_some() {
        return None;
    }
    Some(value)
}

#[cycle(read)]
fn read<'a>(alloc: Global, reader: &mut Reader<'a>, depth: usize) -> Option<Value<'a>>
    ensures reads { IfSome result (λ v. ReadsTo depth reader.old (meaning (value_view v)) reader.new) }
    ensures ordered { IfSome result (λ v. IsOrdered (value_view v)) }
    ensures nests { IfSome result (λ v. nesting (value_view v) ≤ depth) }
    ensures shorter { IfSome result (λ _. length reader.new < length reader.old) }
{
    let token = reader.next()?;
    match token {
        Token::String(text) => Some(Value::String(text)),
        Token::Number(text) => {
            decimal_number(text)?;
            Some(Value::Number(text))
        }
        Token::Bool(b) => Some(Value::Bool(b)),
        Token::Null => Some(Value::Null),
        Token::EndObject | Token::EndArray | Token::Key(_) | Token::Bad => None,
        Token::BeginArray => {
            if depth == 0 {
                return None;
            }
            Some(Value::Array(read_items(alloc, reader, depth - 1)?))
        }
        Token::BeginObject => {
            if depth == 0 {
                return None;
            }
            Some(Value::Object(read_members(alloc, reader, depth - 1)?))
        }
    }
}

#[cycle(read)]
fn read_items<'a>(alloc: Global, reader: &mut Reader<'a>, depth: usize) -> Option<Vec<Value<'a>>>
    ensures reads { IfSome result (λ v. ItemsReadTo depth reader.old (items_meaning (items_view v.items)) reader.new) }
    ensures ordered { IfSome result (λ v. AreOrdered (items_view v.items)) }
    ensures nests { IfSome result (λ v. items_depth (items_view v.items) ≤ depth) }
    ensures shorter { IfSome result (λ _. length reader.new < length reader.old) }
{
    let mut found = Vec::new(alloc);
    'items: while !reader.take_end_array() {
        let item = read(alloc, reader, depth)?;
        found.push(item).ok()?;
    }
    Some(found)
}

#[cycle(read)]
fn read_members<'a>(
    alloc: Global,
    reader: &mut Reader<'a>,
    depth: usize,
) -> Option<Vec<(&'a str, Value<'a>)>>
    ensures reads { IfSome result (λ v. MembersReadTo depth reader.old (members_meaning (members_view v.items)) reader.new) }
    ensures ordered { IfSome result (λ v. AreInOrder (members_view v.items)) }
    ensures nests { IfSome result (λ v. members_depth (members_view v.items) ≤ depth) }
    ensures shorter { IfSome result (λ _. length reader.new < length reader.old) }
{
    let mut found = Vec::new(alloc);
    'members: while let Some(key) = reader.next_key().ok()? {
        let member = read(alloc, reader, depth)?;
        place(&mut found, key, member)?;
    }
    Some(found)
}

// Puts a member where it belongs, if that is near the end, and its key isn't there yet.
fn place<'a>(found: &mut Vec<(&'a str, Value<'a>)>, key: &'a str, member: Value<'a>) -> Option<()>
    requires { AreInOrder (members_view found.old.items) }
    ensures { IfSome result
        (λ _. members_view found.new.items ≡ placed key.now (value_view member.entry) (members_view found.old.items)) }
{
    let at = place_of(found, key)?;
    let Ok(()) = found.insert(at, (key, member)) else {
        return None;
    };
    Some(())
}

// The place where the key belongs, if that is near the end, and the key isn't there yet.
fn place_of(found: &Vec<(&str, Value<'_>)>, key: &str) -> Option<usize>
    ensures { IfSome result (λ at. IsPlace key.now found.now.items at) }
{
    let mut at = found.len();
    'places: for _ in 0..MAX_SHIFT {
        if at == 0 {
            return Some(0);
        }
        let last = &found[at - 1];
        match key.cmp(last.0) {
            Ordering::Less => at -= 1,
            Ordering::Equal => return None,
            Ordering::Greater => return Some(at),
        }
    }
    None
}
