ghost use Rattle.std.specs.Prelude.{⊤, ◌≤◌};

use arrayvec::ArrayVec;
use http_endpoint::{
    Buffers, Checks, LinkCause, LinkEnd, link_end_line, listening_line, serve_link,
};
use rate_io::MemLink;
use rate_types::{OutOfMemory, OwnLimit, Request, RuleId, Seconds, Unit, Word};
use rls_core::{CheckFault, Code, Count, Reply, Status};
use std::alloc::Global;
use std::sync::Wait;
use std::test::Fail;

// A limit of 2 hits a minute on one counter, and a check without a cell from the fourth on.
#[derive(Drop)]
pub struct TwoAMinute {
    pub before: u32,
}

// The status after so many hits.
fn status_after(before: u32, now: Seconds) -> Status {
    Status {
        code: if before < 2 {
            Code::Ok
        } else {
            Code::OverLimit
        },
        limit: Some(OwnLimit {
            limit: 2,
            unit: Unit::Minute,
        }),
        remaining: 1u32.saturating_sub(before),
        reset: 60 - now.get() % 60,
        rule: Some(RuleId(0)),
        count: Count::Before(u64::from(before)),
    }
}

impl Checks for TwoAMinute {
    ghost answers = { λ _ _ _. ⊤ };

    fn check<R: Wait>(
        &mut self,
        _rt: &R,
        _alloc: Global,
        _request: &Request,
        now: Seconds,
    ) -> Result<Reply, CheckFault> {
        let before = self.before;
        if before >= 3 {
            return Err(CheckFault::ClaimsSpent {
                claims: 1,
                wanted: 1,
            });
        }
        self.before = before + 1;
        let mut statuses = ArrayVec::new();
        if statuses.try_push(status_after(before, now)).is_err() {
            return Err(CheckFault::OutOfMemory);
        }
        Ok(Reply {
            version: 0,
            moment: now,
            over: before >= 2,
            statuses,
        })
    }

    fn stats(&mut self, _alloc: Global) -> Result<Option<Word>, OutOfMemory> {
        Ok(None)
    }
}

// What is written for these bytes, given in pieces of so many, and how the connection ends.
pub fn served<R: Wait>(
    rt: &R,
    alloc: Global,
    bytes: &str,
    most: usize,
    failing: u64,
) -> Result<(String, LinkEnd), Fail> {
    served_between(
        rt,
        alloc,
        bytes,
        most,
        failing,
        Seconds::capped(65),
        Seconds::capped(65),
    )
}

// The same at a clock that goes on from one moment to another.
fn served_between<R: Wait>(
    rt: &R,
    alloc: Global,
    bytes: &str,
    most: usize,
    failing: u64,
    first: Seconds,
    last: Seconds,
) -> Result<(String, LinkEnd), Fail>
    requires { first ≤ last }
{
    let bytes = Vec::from_slice(alloc, bytes.as_bytes())?;
    let failing = Vec::from_slice(alloc, &[failing])?;
    let mut link = MemLink::new(alloc, bytes, failing)
        .in_pieces(most.max(1))
        .in_time(first, last);
    let mut checks = TwoAMinute { before: 0 };
    let mut buffers = Buffers::make(alloc)?;
    let end = serve_link(rt, alloc, &mut checks, &mut link, &mut buffers);
    let written = link.written().ok_or("no memory")?;
    Ok((String::from_utf8(Vec::from_slice(alloc, written)?)?, end))
}

pub const CHECK: &str =
    "POST /json HTTP/1.1\r\nContent-Length: 68\r\n\r\n{\"domain\":\"d\",\"descriptors\":[{\"entries\":[{\"key\":\"k\",\"value\":\"a\"}]}]}";

pub const HEALTH: &str = "GET /healthcheck HTTP/1.1\r\n\r\n";

pub const FIRST: &str =
    "HTTP/1.1 200 OK\r\nContent-Type: application/json\r\nContent-Length: 146\r\n\r\n\
    {\"overallCode\":\"OK\",\"statuses\":[{\"code\":\"OK\",\"currentLimit\":{\"requestsPerUnit\":2,\"unit\":\"MINUTE\"},\
    \"durationUntilReset\":\"55s\",\"limitRemaining\":1}]}";

pub const SECOND: &str =
    "HTTP/1.1 200 OK\r\nContent-Type: application/json\r\nContent-Length: 127\r\n\r\n\
    {\"overallCode\":\"OK\",\"statuses\":[{\"code\":\"OK\",\"currentLimit\":{\"requestsPerUnit\":2,\"unit\":\"MINUTE\"},\
    \"durationUntilReset\":\"55s\"}]}";

pub const THIRD: &str =
    "HTTP/1.1 429 Too Many Requests\r\nContent-Type: application/json\r\nContent-Length: 143\r\n\r\n\
    {\"overallCode\":\"OVER_LIMIT\",\"statuses\":[{\"code\":\"OVER_LIMIT\",\"currentLimit\":{\"requestsPerUnit\":2,\"unit\":\
    \"MINUTE\"},\"durationUntilReset\":\"55s\"}]}";

const FULL: &str =
    "HTTP/1.1 503 Service Unavailable\r\nContent-Type: text/plain\r\nContent-Length: 19\r\n\r\nService Unavailable";

pub const HEALTHY: &str =
    "HTTP/1.1 200 OK\r\nContent-Type: text/plain\r\nContent-Length: 2\r\n\r\nOK";

#[test]
fn requests_are_answered_in_order(rt: HostRuntime) -> Result<(), Fail> {
    let alloc = rt.alloc();
    let checks = format!(in alloc; "{CHECK}{CHECK}{CHECK}{HEALTH}{CHECK}{HEALTH}")?;
    let want = format!(in alloc; "{FIRST}{SECOND}{THIRD}{HEALTHY}{FULL}{HEALTHY}")?;
    for most in [1, 7, 20, 5_000] {
        let (out, end) = served(&rt, rt.alloc(), &checks, most, 0)?;
        assert_eq!(rt; out, want, "in pieces of {most}");
        assert!(rt;
            end == LinkEnd {
                cause: LinkCause::Ended,
                answers: 6
            }
        );
    }
    Ok(())
}

#[test]
fn a_kept_connection_sees_the_next_minute(rt: HostRuntime) -> Result<(), Fail> {
    let alloc = rt.alloc();
    let checks = format!(in alloc; "{CHECK}{CHECK}")?;
    let first = Seconds::capped(119);
    let last = Seconds::capped(120);
    let (out, _) = served_between(&rt, alloc, &checks, 20, 0, first, last)?;
    assert!(rt; out.contains("durationUntilReset\":\"1s\",\"limitRemaining\":1"));
    assert!(rt; out.contains("durationUntilReset\":\"60s\"}]}"));
    Ok(())
}

#[test]
fn each_end_has_its_cause(rt: HostRuntime) -> Result<(), Fail> {
    let alloc = rt.alloc();
    let cut = format!(in alloc; "{HEALTH}{CHECK}")?;
    let cut = &cut.as_str()[..29 + 43 + 67];
    let chunked = "POST /json HTTP/1.1\r\nTransfer-Encoding: chunked\r\n\r\nGET /";
    for (bytes, failing, cause, answers) in [
        (HEALTH, 0, LinkCause::Ended, 1),
        ("\r\n", 0, LinkCause::Ended, 0),
        ("\r\n\r", 0, LinkCause::CutShort, 0),
        (cut, 0, LinkCause::CutShort, 1),
        (chunked, 0, LinkCause::Closed, 1),
        (HEALTH, 1, LinkCause::ReadFault, 0),
        (HEALTH, 2, LinkCause::WriteFault, 0),
        (HEALTH, 3, LinkCause::ReadFault, 1),
    ] {
        let (_, end) = served(&rt, rt.alloc(), bytes, 5_000, failing)?;
        assert!(rt;
            end == LinkEnd { cause, answers },
            "of {bytes:?}, call {failing} fails"
        );
    }
    Ok(())
}

// The same request so many times.
fn repeated(alloc: Global, request: &str, times: usize) -> Result<String, Fail> {
    let mut bytes = String::new(alloc);
    for _ in 0..times {
        bytes.push_str(request)?;
    }
    Ok(bytes)
}

#[test]
fn the_1024th_answer_closes(rt: HostRuntime) -> Result<(), Fail> {
    let bytes = repeated(rt.alloc(), HEALTH, 1_500)?;
    let (out, end) = served(&rt, rt.alloc(), &bytes, 5_000, 0)?;
    assert!(rt;
        end == LinkEnd {
            cause: LinkCause::Closed,
            answers: 1_024
        }
    );
    assert_eq!(rt; out.len(), 1_024 * HEALTHY.len() + 19);
    Ok(())
}

#[test]
fn the_largest_body_is_read(rt: HostRuntime) -> Result<(), Fail> {
    let alloc = rt.alloc();
    let mut bytes = String::from_str(
        alloc,
        "POST /json HTTP/1.1\r\nContent-Length: 1048576\r\n\r\n",
    )?;
    bytes.push_str(&repeated(alloc, "0123456789abcdef", 65_536)?)?;
    bytes.push_str(HEALTH)?;
    let (out, end) = served(&rt, rt.alloc(), &bytes, 5_000, 0)?;
    assert!(rt;
        end == LinkEnd {
            cause: LinkCause::Ended,
            answers: 2
        }
    );
    assert!(rt;
        out.as_str().starts_with("HTTP/1.1 400 Bad Request\r\nContent-Type: application/json\r\n")
    );
    Ok(())
}

#[test]
fn serving_prints_its_port_and_the_end_of_each_connection(rt: HostRuntime) -> Result<(), Fail> {
    let alloc = rt.alloc();
    let port = listening_line(alloc, 8_080)?;
    assert_eq!(rt; port.as_str(), "{\"listening\":8080}");
    for (cause, want) in [
        (LinkCause::Closed, "CLOSED"),
        (LinkCause::Ended, "ENDED"),
        (LinkCause::CutShort, "CUT_SHORT"),
        (LinkCause::ReadFault, "READ_FAULT"),
        (LinkCause::WriteFault, "WRITE_FAULT"),
    ] {
        let line = link_end_line(alloc, 7, LinkEnd { cause, answers: 3 })?;
        let want = format!(in alloc; "{{\"answers\":3,\"connection\":7,\"end\":\"{want}\"}}")?;
        assert_eq!(rt; line, want);
    }
    Ok(())
}
