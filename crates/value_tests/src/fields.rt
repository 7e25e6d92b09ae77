use proto_json::{FieldName, Fields, FormFault, parse};
use rate_types::refusals::TEXT_TOO_LONG;
use rate_types::{Place, print_duration};
use std::alloc::Global;
use std::test::Fail;

// How the field `aB` or `a_b` of a test's object is read.
#[derive(Clone, Copy, Debug, PartialEq, Eq)]
enum Kind {
    Text,
    Short,
    U32,
    U64,
    Bool,
    Unit,
    Duration,
    List,
    Object,
    Any,
}

// The field of a test's object.
const AB: FieldName = ("aB", "a_b");

// The field's value as a text, or nothing where it is none.
fn take(alloc: Global, fields: &mut Fields, kind: Kind) -> Result<Option<String>, FormFault> {
    match kind {
        Kind::Text => fields.take_text(AB),
        Kind::Short => match fields.take_short_text(AB, TEXT_TOO_LONG)? {
            Some(text) => Ok(Some(String::from_str(alloc, text.as_str())?)),
            None => Ok(None),
        },
        Kind::U32 => match fields.take_u32(AB)? {
            Some(n) => Ok(Some(format!(in alloc; "{n}")?)),
            None => Ok(None),
        },
        Kind::U64 => match fields.take_u64(AB)? {
            Some(n) => Ok(Some(format!(in alloc; "{n}")?)),
            None => Ok(None),
        },
        Kind::Bool => match fields.take_bool(AB)? {
            Some(b) => Ok(Some(format!(in alloc; "{b}")?)),
            None => Ok(None),
        },
        Kind::Unit => match fields.take_unit(AB)? {
            Some(unit) => Ok(Some(format!(in alloc; "{}", unit.seconds())?)),
            None => Ok(None),
        },
        Kind::Duration => match fields.take_duration(AB)? {
            Some(millis) => Ok(Some(print_duration(alloc, millis)?)),
            None => Ok(None),
        },
        Kind::List => match fields.take_list(AB)? {
            Some(list) => Ok(Some(format!(in alloc; "{} items", list.items.len())?)),
            None => Ok(None),
        },
        Kind::Object => match fields.take_fields(AB)? {
            Some(inner) => Ok(Some(String::from_str(alloc, inner.place().as_str())?)),
            None => Ok(None),
        },
        Kind::Any => match fields.take_value(AB)? {
            Some(it) => Ok(Some(format!(in alloc; "some at {}", it.place.as_str())?)),
            None => Ok(None),
        },
    }
}

fn read(alloc: Global, text: &str, kind: Kind) -> Result<Option<String>, FormFault> {
    let value = parse(alloc, text.as_bytes())?;
    let mut fields = Fields::of(value, Place::empty(alloc))?;
    let said = take(alloc, &mut fields, kind)?;
    let _ = fields.end()?;
    Ok(said)
}

fn shown(rt: HostRuntime, text: &str, kind: Kind) -> Result<String, Fail> {
    let alloc = rt.alloc();
    match read(alloc, text, kind) {
        Ok(Some(said)) => Ok(said),
        Ok(None) => Ok(String::from_str(alloc, "none")?),
        Err(FormFault::Refused(refused)) => Ok(format!(in alloc;
            "{} at {}",
            refused.number,
            refused.at.as_str()
        )?),
        Err(FormFault::OutOfMemory) => Ok(String::from_str(alloc, "out of memory")?),
    }
}

#[test]
fn fields_read_by_their_kinds(rt: HostRuntime) -> Result<(), Fail> {
    let rows = [
        ("{", Kind::Text, "1 at "),
        ("[]", Kind::Text, "2 at "),
        (r#"{"aB":"x","~/":1,"é":2}"#, Kind::Text, "3 at /~0~1"),
        (r#"{"aB":null,"a_b":"x"}"#, Kind::Text, "4 at /aB"),
        (r#"{"a_b":1}"#, Kind::Text, "5 at /a_b"),
        (r#"{"aB":null}"#, Kind::Text, "none"),
        ("{}", Kind::Object, "none"),
        (r#"{"a_b":"x"}"#, Kind::Text, "x"),
        (r#"{"aB":"x","z":1}"#, Kind::Short, "3 at /z"),
        (r#"{"a_b":1}"#, Kind::Short, "5 at /a_b"),
        (r#"{"aB":4294967295}"#, Kind::U32, "4294967295"),
        (r#"{"aB":4294967296}"#, Kind::U32, "7 at /aB"),
        (r#"{"aB":"00000000000000000007"}"#, Kind::U32, "7"),
        (r#"{"aB":"000000000000000000007"}"#, Kind::U32, "6 at /aB"),
        (r#"{"aB":"+7"}"#, Kind::U32, "6 at /aB"),
        (r#"{"aB":-1}"#, Kind::U64, "7 at /aB"),
        (r#"{"aB":1.5}"#, Kind::U64, "6 at /aB"),
        (r#"{"aB":1.0}"#, Kind::U64, "6 at /aB"),
        (r#"{"aB":1e2}"#, Kind::U64, "6 at /aB"),
        (r#"{"aB":1,"aB":2}"#, Kind::U64, "2"),
        (r#"{"aB":true}"#, Kind::U64, "5 at /aB"),
        (
            r#"{"aB":"18446744073709551615"}"#,
            Kind::U64,
            "18446744073709551615",
        ),
        (r#"{"aB":"18446744073709551616"}"#, Kind::U64, "7 at /aB"),
        (r#"{"aB":true}"#, Kind::Bool, "true"),
        (r#"{"aB":0}"#, Kind::Bool, "5 at /aB"),
        (r#"{"aB":"mInUtE"}"#, Kind::Unit, "60"),
        (r#"{"aB":"unknown"}"#, Kind::Unit, "none"),
        (r#"{"aB":"WEEK"}"#, Kind::Unit, "8 at /aB"),
        (r#"{"aB":2}"#, Kind::Unit, "5 at /aB"),
        (r#"{"aB":"1.5s"}"#, Kind::Duration, "1.500s"),
        (r#"{"aB":"1.s"}"#, Kind::Duration, "40 at /aB"),
        (r#"{"a_b":1}"#, Kind::Duration, "5 at /a_b"),
        (r#"{"aB":"0.0001s"}"#, Kind::Duration, "41 at /aB"),
        (r#"{"aB":"1000000000.0001s"}"#, Kind::Duration, "42 at /aB"),
        (r#"{"aB":[null,1]}"#, Kind::List, "2 items"),
        (r#"{"aB":{}}"#, Kind::List, "5 at /aB"),
        (r#"{"a_b":{}}"#, Kind::Object, "/a_b"),
        (r#"{"aB":[]}"#, Kind::Object, "2 at /aB"),
        (r#"{"aB":false}"#, Kind::Any, "some at /aB"),
    ];
    for (text, kind, want) in rows {
        let said = shown(rt, text, kind)?;
        assert_eq!(rt; said.as_str(), want, "at {text}");
    }
    Ok(())
}
