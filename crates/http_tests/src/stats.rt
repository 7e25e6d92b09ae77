ghost use Rattle.std.specs.Prelude.{⊤};

use crate::connections::{CHECK, TwoAMinute};
use arrayvec::ArrayVec;
use counted_checks::{counted, open_stats};
use http_endpoint::{Buffers, Checks, serve_link};
use rate_io::MemLink;
use rate_types::{OutOfMemory, OwnLimit, Request, RuleId, Seconds, Unit, Word};
use rls_core::{CheckFault, Code, Count, Reply, Status};
use std::alloc::Global;
use std::sync::Wait;
use std::test::Fail;

// A limit of 5 hits a minute on one counter, by rule 0. From the seventh check on the counter is seen over the limit, and nothing is
// charged.
#[derive(Drop)]
struct FiveAMinute {
    before: u32,
}

fn status_after(before: u32) -> Status {
    Status {
        code: if before < 5 {
            Code::Ok
        } else {
            Code::OverLimit
        },
        limit: Some(OwnLimit {
            limit: 5,
            unit: Unit::Minute,
        }),
        remaining: 4u32.saturating_sub(before),
        reset: 60,
        rule: Some(RuleId(0)),
        count: if before < 6 {
            Count::Before(u64::from(before))
        } else {
            Count::Seen(6)
        },
    }
}

impl Checks for FiveAMinute {
    ghost answers = { λ _ _ _. ⊤ };

    fn check<R: Wait>(
        &mut self,
        _rt: &R,
        _alloc: Global,
        _request: &Request,
        now: Seconds,
    ) -> Result<Reply, CheckFault> {
        let before = self.before;
        self.before = before.saturating_add(1);
        let mut statuses = ArrayVec::new();
        if statuses.try_push(status_after(before)).is_err() {
            return Err(CheckFault::OutOfMemory);
        }
        Ok(Reply {
            version: 0,
            moment: now,
            over: before >= 5,
            statuses,
        })
    }

    fn stats(&mut self, _alloc: Global) -> Result<Option<Word>, OutOfMemory> {
        Ok(None)
    }
}

// What is written for these bytes, where the checks are counted if statistics are kept.
fn written_for<R: Wait, K: Checks + Drop>(
    rt: &R,
    alloc: Global,
    checks: K,
    is_kept: bool,
    bytes: &str,
) -> Result<String, Fail> {
    let (stats, passes) = open_stats(alloc, is_kept, 1)?;
    let mut plain = Vec::new(alloc);
    plain.push(checks)?;
    let mut all = counted(alloc, plain, &stats, passes)?;
    let mut one = all.pop().ok_or("no checks")?;
    let bytes = Vec::from_slice(alloc, bytes.as_bytes())?;
    let mut link = MemLink::new(alloc, bytes, Vec::new(alloc)).in_pieces(50);
    let mut buffers = Buffers::make(alloc)?;
    serve_link(rt, alloc, &mut one, &mut link, &mut buffers);
    let written = link.written().ok_or("no memory")?;
    Ok(String::from_utf8(Vec::from_slice(alloc, written)?)?)
}

const SEVEN: &str =
    "HTTP/1.1 200 OK\r\nContent-Type: application/json\r\nContent-Length: 81\r\n\r\n\
    {\"rules\":[{\"near\":1,\"over\":2,\"rule\":0,\"seen\":1,\"shadow\":0,\"total\":7,\"within\":5}]}";

#[test]
fn each_answered_check_is_counted(rt: HostRuntime) -> Result<(), Fail> {
    let alloc = rt.alloc();
    let bytes = format!(in alloc;
        "{CHECK}{CHECK}{CHECK}{CHECK}{CHECK}{CHECK}{CHECK}GET /stats HTTP/1.1\r\n\r\n"
    )?;
    let out = written_for(&rt, alloc, FiveAMinute { before: 0 }, true, &bytes)?;
    assert!(rt; out.as_str().ends_with(SEVEN), "{out}");
    Ok(())
}

#[test]
fn a_refused_check_is_not_counted(rt: HostRuntime) -> Result<(), Fail> {
    let alloc = rt.alloc();
    let bytes = format!(in alloc; "{CHECK}{CHECK}{CHECK}{CHECK}GET /stats HTTP/1.1\r\n\r\n")?;
    let out = written_for(&rt, alloc, TwoAMinute { before: 0 }, true, &bytes)?;
    assert!(rt;
        out.as_str().ends_with(
            "\"over\":1,\"rule\":0,\"seen\":0,\"shadow\":0,\"total\":3,\"within\":2}]}"
        ),
        "{out}"
    );
    Ok(())
}

const EMPTY: &str =
    "HTTP/1.1 200 OK\r\nContent-Type: application/json\r\nContent-Length: 12\r\n\r\n{\"rules\":[]}";

const NOT_ALLOWED: &str =
    "HTTP/1.1 405 Method Not Allowed\r\nContent-Type: text/plain\r\nContent-Length: 18\r\nAllow: GET\r\n\r\n";

const NOT_FOUND: &str =
    "HTTP/1.1 404 Not Found\r\nContent-Type: text/plain\r\nContent-Length: 9\r\n\r\n";

#[test]
fn get_alone_is_answered(rt: HostRuntime) -> Result<(), Fail> {
    let alloc = rt.alloc();
    let post = "POST /stats HTTP/1.1\r\nContent-Length: 2\r\n\r\n{}";
    let bytes = format!(in alloc;
        "{post}HEAD /stats HTTP/1.1\r\n\r\nGET /stats?all HTTP/1.1\r\nContent-Length: 1\r\n\r\n GET /stats HTTP/1.0\r\n\r\n"
    )?;
    let out = written_for(&rt, alloc, FiveAMinute { before: 0 }, true, &bytes)?;
    let closing = EMPTY.replace(alloc, "12\r\n", "12\r\nConnection: close\r\n")?;
    let want = format!(in alloc; "{NOT_ALLOWED}Method Not Allowed{NOT_ALLOWED}{EMPTY}{closing}")?;
    assert_eq!(rt; out, want);
    Ok(())
}

#[test]
fn without_statistics_there_is_no_such_target(rt: HostRuntime) -> Result<(), Fail> {
    let alloc = rt.alloc();
    let bytes =
        "GET /stats HTTP/1.1\r\n\r\nHEAD /stats HTTP/1.1\r\n\r\nPOST /stats?x HTTP/1.1\r\nContent-Length: 1\r\n\r\n.";
    let out = written_for(&rt, alloc, FiveAMinute { before: 0 }, false, bytes)?;
    let want = format!(in alloc; "{NOT_FOUND}Not Found{NOT_FOUND}{NOT_FOUND}Not Found")?;
    assert_eq!(rt; out, want);
    Ok(())
}
