use proto_json::{FormFault, parse};
use rate_types::{Descriptor, Place, Request, Unit};
use reply_text::read_request;
use std::alloc::Global;
use std::test::Fail;

fn unit_text(unit: Unit) -> &'static str {
    match unit {
        Unit::Second => "second",
        Unit::Minute => "minute",
        Unit::Hour => "hour",
        Unit::Day => "day",
    }
}

// A descriptor as a text: the key and value of each entry, its own limit and its own hits.
fn descriptor_text(alloc: Global, descriptor: &Descriptor) -> Result<String, Fail> {
    let mut out = String::new(alloc);
    for entry in descriptor.entries.items() {
        let entry = format!(in alloc; " {}={}", entry.key.as_str(), entry.value.as_str())?;
        out.push_str(&entry)?;
    }
    if let Some(own) = descriptor.own {
        let own = format!(in alloc; " limit {} a {}", own.limit, unit_text(own.unit))?;
        out.push_str(&own)?;
    }
    if let Some(hits) = descriptor.hits {
        let hits = format!(in alloc; " hits {hits}")?;
        out.push_str(&hits)?;
    }
    Ok(out)
}

// A request as a text: its domain, its hits, then its descriptors, each behind a comma.
fn shown(alloc: Global, request: &Request) -> Result<String, Fail> {
    let mut out = format!(in alloc; "{} hits {}", request.domain().as_str(), request.hits())?;
    for descriptor in request.descriptors() {
        out.push(',')?;
        out.push_str(&descriptor_text(alloc, descriptor)?)?;
    }
    Ok(out)
}

// What a text reads as.
fn request_in(alloc: Global, text: &str) -> Result<Request, FormFault> {
    let value = parse(alloc, text.as_bytes())?;
    read_request(alloc, value, Place::empty(alloc).child("c")?)
}

// A request at `/c` in words, or its first fault.
fn said(alloc: Global, text: &str) -> Result<String, Fail> {
    match request_in(alloc, text) {
        Ok(request) => shown(alloc, &request),
        Err(FormFault::Refused(refused)) => Ok(format!(in alloc;
            "{} at {}",
            refused.number,
            refused.at.as_str()
        )?),
        Err(FormFault::OutOfMemory) => Ok(String::from_str(alloc, "out of memory")?),
    }
}

// A table is a text. Each of its lines is a request, an arrow, and what that reads as.
const REQUESTS: &str =
    r#"{"domain":"d","descriptors":[{"entries":[{"key":"k","value":"a"}]}]} => d hits 1, k=a
{"descriptors":[{"entries":[{"key":"k"}]}],"domain":"d","hitsAddend":0} => d hits 1, k=
{"domain":"d","descriptors":[{"entries":[{"key":"k"},{"key":"l","value":"b"}]},{"entries":[{"key":"k"}]}],"hits_addend":"007"} => d hits 7, k= l=b, k=
{"domain":"d","descriptors":[{"entries":[{"key":"k"}],"limit":{"unit":"day","requestsPerUnit":3},"hitsAddend":0}]} => d hits 1, k= limit 3 a day hits 0
{"domain":"d","descriptors":[{"entries":[{"key":"k"}],"limit":{"unit":"SECOND"},"hits_addend":"4294967295"}]} => d hits 1, k= limit 0 a second hits 4294967295
{"domain":"d","descriptors":[{"entries":[{"key":"k","value":null}],"limit":null,"hitsAddend":null}],"hitsAddend":null} => d hits 1, k=
[] => 2 at /c
null => 2 at /c
{} => 20 at /c
{"domain":"","descriptors":[]} => 20 at /c
{"domain":"d"} => 21 at /c
{"domain":"d","descriptors":[],"more":1} => 3 at /c/more
{"domain":1} => 5 at /c/domain
{"domain":"d","descriptors":{}} => 5 at /c/descriptors
{"domain":"d","descriptors":[null]} => 2 at /c/descriptors/0
{"domain":"d","descriptors":[{}]} => 23 at /c/descriptors/0
{"domain":"d","descriptors":[{"entries":[]}]} => 23 at /c/descriptors/0
{"domain":"d","descriptors":[{"entries":[{"value":"a"}]}]} => 24 at /c/descriptors/0/entries/0
{"domain":"","descriptors":[{"entries":[{"key":"k"},{"key":""}]}]} => 24 at /c/descriptors/0/entries/1
{"domain":"d","descriptors":[{"entries":[{"key":"k","keys":1,"a~/":2}]}]} => 3 at /c/descriptors/0/entries/0/a~0~1
{"domain":"d","descriptors":[{"entries":[{"key":"k"}],"limit":{"requestsPerUnit":1}}]} => 14 at /c/descriptors/0/limit
{"domain":"d","descriptors":[{"entries":[{"key":"k"}],"limit":{"requestsPerUnit":-1,"unit":"x"}}]} => 7 at /c/descriptors/0/limit/requestsPerUnit
{"domain":"d","descriptors":[{"entries":[{"key":"k"}],"limit":{"unit":"week"}}]} => 8 at /c/descriptors/0/limit/unit
{"domain":"d","descriptors":[{"limit":[]}]} => 2 at /c/descriptors/0/limit
{"domain":"d","descriptors":[{"entries":[{"key":"k"}],"hitsAddend":1.0}]} => 6 at /c/descriptors/0/hitsAddend
{"domain":"d","descriptors":[{"entries":[{"key":"k"}]}],"hits_addend":4294967296} => 7 at /c/hits_addend
{"domain":"d","descriptors":[{"entries":[{"key":"k"}]}],"hits_addend":1,"hitsAddend":null} => 4 at /c/hitsAddend"#;

#[test]
fn requests_are_read_and_refused_at_their_places(rt: HostRuntime) -> Result<(), Fail> {
    for row in REQUESTS.lines() {
        let (text, want) = row.split_once(" => ").ok_or("a row")?;
        let found = said(rt.alloc(), text)?;
        assert_eq!(rt; found.as_str(), want, "at {text}");
    }
    Ok(())
}

// A request whose first descriptor has so many entries, each with a key of so many bytes, and so many descriptors behind it.
fn request_of(alloc: Global, entries: usize, bytes: usize, behind: usize) -> Result<String, Fail> {
    let entry = format!(in alloc; r#"{{"key":"{}"}},"#, "k".repeat(alloc, bytes)?)?;
    let first = entry.repeat(alloc, entries)?;
    let more = r#",{"entries":[{"key":"k"}]}"#.repeat(alloc, behind)?;
    Ok(format!(in alloc;
        r#"{{"domain":"d","descriptors":[{{"entries":[{}]}}{more}]}}"#,
        first.trim_end_matches(',')
    )?)
}

#[test]
fn requests_have_32_descriptors_of_32_entries_of_1024_bytes(rt: HostRuntime) -> Result<(), Fail> {
    let alloc = rt.alloc();
    for (entries, bytes, behind, want) in [
        (32, 1024, 31, "d hits 1"),
        (33, 1025, 32, "22 at /c/descriptors"),
        (33, 1025, 31, "25 at /c/descriptors/0/entries"),
        (32, 1025, 31, "26 at /c/descriptors/0/entries/0/key"),
    ] {
        let found = said(alloc, &request_of(alloc, entries, bytes, behind)?)?;
        assert!(rt; found.starts_with(want), "{want}: {found}");
    }
    Ok(())
}
