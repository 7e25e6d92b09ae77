// Connections that are cut, that fail, or whose requests are too long: what is written to each, and how it ends.
use super::connections::{CHECK, FIRST, HEALTH, HEALTHY, SECOND, THIRD, served};
use http_endpoint::{LinkCause, LinkEnd};
use std::alloc::Global;
use std::sync::Wait;
use std::test::Fail;

// The first answers to checks of one counter, so many of three.
fn answers_of(alloc: Global, count: u32) -> Result<String, Fail> {
    let mut out = String::new(alloc);
    for (_, answer) in (0..count).zip(&[FIRST, SECOND, THIRD]) {
        out.push_str(answer)?;
    }
    Ok(out)
}

// Of three checks, each of 111 bytes, that are cut after so many bytes the whole ones are answered.
fn is_cut_after<R: Wait>(
    rt: &R,
    alloc: Global,
    bytes: &str,
    cut: u32,
    most: usize,
) -> Result<bool, Fail> {
    let sent = bytes.get(..cut as usize).ok_or("a cut")?;
    let (out, end) = served(rt, alloc, sent, most, 0)?;
    let answers = cut / 111;
    let cause = if cut % 111 == 0 {
        LinkCause::Ended
    } else {
        LinkCause::CutShort
    };
    Ok(end == LinkEnd { cause, answers } && out == answers_of(alloc, answers)?)
}

#[test]
fn a_connection_is_cut_after_each_of_its_bytes(rt: HostRuntime) -> Result<(), Fail> {
    let bytes = format!(in rt.alloc(); "{CHECK}{CHECK}{CHECK}")?;
    assert_eq!(rt; bytes.len(), 333);
    for cut in 0..=333 {
        let is_right = is_cut_after(&rt, rt.alloc(), &bytes, cut, 5_000)?;
        assert!(rt; is_right, "cut after {cut} bytes");
        let is_right = is_cut_after(&rt, rt.alloc(), &bytes, cut, 1)?;
        assert!(rt; is_right, "cut after {cut} bytes, in pieces of one");
    }
    Ok(())
}

// How three checks end by the number of the call that fails, where each takes so many reads and then one write; behind them stands
// the read that finds the end, and then no call.
fn ends_by_call(alloc: Global, reads: usize) -> Result<Vec<LinkEnd>, Fail> {
    let mut ends = Vec::new(alloc);
    for answers in 0..3 {
        let fault = LinkEnd {
            cause: LinkCause::ReadFault,
            answers,
        };
        ends.resize(ends.len().saturating_add(reads), fault)?;
        ends.push(LinkEnd {
            cause: LinkCause::WriteFault,
            answers,
        })?;
    }
    for cause in [LinkCause::ReadFault, LinkCause::Ended] {
        ends.push(LinkEnd { cause, answers: 3 })?;
    }
    Ok(ends)
}

// The first call whose fault doesn't end three checks so, or writes anything but the answers before it.
fn wrong_call<R: Wait>(
    rt: &R,
    alloc: Global,
    bytes: &str,
    most: usize,
    ends: &[LinkEnd],
) -> Result<Option<u64>, Fail> {
    let mut call = 0u64;
    for want in ends {
        call = call.saturating_add(1);
        let (out, end) = served(rt, alloc, bytes, most, call)?;
        if end != *want || out != answers_of(alloc, want.answers)? {
            return Ok(Some(call));
        }
    }
    Ok(None)
}

#[test]
fn each_read_and_each_write_can_fail(rt: HostRuntime) -> Result<(), Fail> {
    let bytes = format!(in rt.alloc(); "{CHECK}{CHECK}{CHECK}")?;
    for (most, reads, calls) in [(1, 111, 338), (37, 3, 14), (111, 1, 8)] {
        let ends = ends_by_call(rt.alloc(), reads)?;
        assert_eq!(rt; ends.len(), calls);
        let wrong = wrong_call(&rt, rt.alloc(), &bytes, most, &ends)?;
        assert_eq!(rt; wrong, None, "in pieces of {most}");
    }
    Ok(())
}

// These answers, one behind the other.
fn joined(alloc: Global, answers: &[&str]) -> Result<String, Fail> {
    let mut out = String::new(alloc);
    for answer in answers {
        out.push_str(answer)?;
    }
    Ok(out)
}

// The call that fails, of a read of two requests, two writes and a read that finds the end, and what is written before.
const PIPELINED: &[(u64, LinkCause, &[&str])] = &[
    (1, LinkCause::ReadFault, &[]),
    (2, LinkCause::WriteFault, &[]),
    (3, LinkCause::WriteFault, &[HEALTHY]),
    (4, LinkCause::ReadFault, &[HEALTHY, HEALTHY]),
    (5, LinkCause::Ended, &[HEALTHY, HEALTHY]),
];

#[test]
fn two_requests_of_one_read_are_answered_by_two_writes(rt: HostRuntime) -> Result<(), Fail> {
    let bytes = format!(in rt.alloc(); "{HEALTH}{HEALTH}")?;
    for &(call, cause, wants) in PIPELINED {
        let (out, end) = served(&rt, rt.alloc(), &bytes, 5_000, call)?;
        let answers = wants.len() as u32;
        assert!(rt; end == LinkEnd { cause, answers }, "call {call} fails");
        assert_eq!(rt; out, joined(rt.alloc(), wants)?, "call {call} fails");
    }
    Ok(())
}

const TOO_LARGE: &str =
    "HTTP/1.1 431 Request Header Fields Too Large\r\nContent-Type: text/plain\r\nContent-Length: 31\r\nConnection: close\r\n\r\n\
    Request Header Fields Too Large";

const NOT_FOUND: &str =
    "HTTP/1.1 404 Not Found\r\nContent-Type: text/plain\r\nContent-Length: 9\r\n\r\nNot Found";

const NO_LENGTH: &str =
    "HTTP/1.1 400 Bad Request\r\nContent-Type: text/plain\r\nContent-Length: 11\r\nConnection: close\r\n\r\nBad Request";

const TOO_LONG: &str =
    "HTTP/1.1 413 Payload Too Large\r\nContent-Type: text/plain\r\nContent-Length: 17\r\nConnection: close\r\n\r\nPayload Too Large";

// A head of a field of so many bytes, or of fields on so many lines, and what stands behind it.
fn head_of(alloc: Global, piece: &str, times: usize, last: &str) -> Result<String, Fail> {
    let mut bytes = String::from_str(alloc, "GET / HTTP/1.1\na:")?;
    bytes.push_str(&piece.repeat(alloc, times)?)?;
    bytes.push_str(last)?;
    Ok(bytes)
}

// The end of a head, and a health check behind it.
const BEHIND: &str = "\n\nGET /healthcheck HTTP/1.1\r\n\r\n";

// 16,384 bytes with their end and 66 line feeds are taken; without an end, or with one line feed more, the answer closes.
const HEADS: &[(&str, usize, &str, LinkCause, &[&str])] = &[
    ("x", 16_366, "", LinkCause::CutShort, &[]),
    ("x", 16_367, "", LinkCause::Closed, &[TOO_LARGE]),
    ("x", 16_365, BEHIND, LinkCause::Ended, &[NOT_FOUND, HEALTHY]),
    ("x", 16_366, BEHIND, LinkCause::Closed, &[TOO_LARGE]),
    ("\nb:", 63, BEHIND, LinkCause::Ended, &[NOT_FOUND, HEALTHY]),
    ("\nb:", 64, BEHIND, LinkCause::Closed, &[TOO_LARGE]),
];

#[test]
fn a_head_that_is_too_long_is_answered_and_closes(rt: HostRuntime) -> Result<(), Fail> {
    for &(piece, times, last, cause, wants) in HEADS {
        let bytes = head_of(rt.alloc(), piece, times, last)?;
        let (out, end) = served(&rt, rt.alloc(), &bytes, 5_000, 0)?;
        let answers = wants.len() as u32;
        assert!(rt; end == LinkEnd { cause, answers }, "{times} pieces");
        assert_eq!(rt; out, joined(rt.alloc(), wants)?, "{times} pieces");
    }
    Ok(())
}

// Nothing behind a length that can't be is answered, and a body of the greatest length that doesn't come has no answer.
const LENGTHS: &[(&str, LinkCause, &[&str])] = &[
    ("99999999999", LinkCause::Closed, &[NO_LENGTH]),
    ("-1", LinkCause::Closed, &[NO_LENGTH]),
    ("", LinkCause::Closed, &[NO_LENGTH]),
    ("1, 1", LinkCause::Closed, &[NO_LENGTH]),
    ("9999999999", LinkCause::Closed, &[TOO_LONG]),
    ("1048577", LinkCause::Closed, &[TOO_LONG]),
    ("1048576", LinkCause::CutShort, &[]),
];

#[test]
fn a_length_that_is_out_of_bounds_is_answered_and_closes(rt: HostRuntime) -> Result<(), Fail> {
    for &(length, cause, wants) in LENGTHS {
        let bytes = format!(in rt.alloc();
            "POST /json HTTP/1.1\r\nContent-Length: {length}\r\n\r\n{HEALTH}"
        )?;
        let (out, end) = served(&rt, rt.alloc(), &bytes, 5_000, 0)?;
        let answers = wants.len() as u32;
        assert!(rt; end == LinkEnd { cause, answers }, "a length of {length}");
        assert_eq!(rt; out, joined(rt.alloc(), wants)?, "a length of {length}");
    }
    Ok(())
}
