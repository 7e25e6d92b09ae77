use http::StatusCode;
use http_front::{Front, HttpAnswer, Part, out_of_memory_answer, print_answer, read_front};
use std::alloc::Global;
use std::test::Fail;

// What is known of the front of these bytes: an answer's text with the number of bytes it uses, or what is wanted.
fn shown(alloc: Global, bytes: &[u8]) -> Result<String, Fail> {
    match read_front(alloc, bytes)? {
        Part::Whole(Front::Fixed { answer, used }) => {
            let mut out = String::new(alloc);
            print_answer(&mut out, &answer)?;
            Ok(format!(in alloc; "{used}: {out}")?)
        }
        Part::Whole(
            Front::Check {
                request,
                closes,
                used,
            },
        ) => {
            let hits = request.hits();
            Ok(format!(in alloc; "{used}: check of {hits} closes {closes}")?)
        }
        Part::Whole(
            Front::Stats {
                method,
                closes,
                used,
            },
        ) => Ok(format!(in alloc; "{used}: statistics by {method:?} closes {closes}")?),
        Part::Whole(_) => Ok(String::from_str(alloc, "waits")?),
        Part::NoHead { is_blank } => Ok(format!(in alloc; "no head, blank {is_blank}")?),
        Part::NoBody { total, sends_body } => {
            Ok(format!(in alloc; "{total} bytes, body sent {sends_body}")?)
        }
    }
}

#[test]
fn each_request_has_its_answer(rt: HostRuntime) -> Result<(), Fail> {
    let alloc = rt.alloc();
    for (bytes, want) in [
        (
            "GET /healthcheck HTTP/1.1\r\n\r\n",
            "29: HTTP/1.1 200 OK\r\nContent-Type: text/plain\r\nContent-Length: 2\r\n\r\nOK",
        ),
        (
            "\r\n\nGET /healthcheck?x HTTP/1.1\n\n\r\n",
            "32: HTTP/1.1 200 OK\r\nContent-Type: text/plain\r\nContent-Length: 2\r\n\r\nOK",
        ),
        (
            "GET /a b HTTP/1.1\r\n\r\n",
            "21: HTTP/1.1 400 Bad Request\r\nContent-Type: text/plain\r\nContent-Length: 11\r\nConnection: close\r\n\r\nBad Request",
        ),
        (
            "POST /json HTTP/1.1\r\nContent-Length: 1x\r\n\r\n",
            "43: HTTP/1.1 400 Bad Request\r\nContent-Type: text/plain\r\nContent-Length: 11\r\nConnection: close\r\n\r\nBad Request",
        ),
        (
            "POST /json HTTP/1.1\r\nContent-Length: 14\r\n\r\n{\"domain\":\"d\"}",
            "57: HTTP/1.1 400 Bad Request\r\nContent-Type: application/json\r\nContent-Length: 33\r\n\r\n\
            {\"refused\":{\"at\":\"\",\"number\":21}}",
        ),
        (
            "POST /json HTTP/1.1\r\nContent-Length: 0\r\n\r\n",
            "42: HTTP/1.1 400 Bad Request\r\nContent-Type: application/json\r\nContent-Length: 32\r\n\r\n\
            {\"refused\":{\"at\":\"\",\"number\":1}}",
        ),
        (
            "GET / HTTP/1.1\r\nConnection: keep-alive , CLOSE\r\n\r\nGET /",
            "50: HTTP/1.1 404 Not Found\r\nContent-Type: text/plain\r\nContent-Length: 9\r\nConnection: close\r\n\r\nNot Found",
        ),
        (
            "GET /json HTTP/1.1\r\n\r\n",
            "22: HTTP/1.1 405 Method Not Allowed\r\nContent-Type: text/plain\r\nContent-Length: 18\r\nAllow: POST\r\n\r\n\
            Method Not Allowed",
        ),
        (
            "HEAD /json HTTP/1.1\r\n\r\n",
            "23: HTTP/1.1 405 Method Not Allowed\r\nContent-Type: text/plain\r\nContent-Length: 18\r\nAllow: POST\r\n\r\n",
        ),
        (
            "PUT /healthcheck HTTP/1.0\r\n\r\n",
            "29: HTTP/1.1 405 Method Not Allowed\r\nContent-Type: text/plain\r\nContent-Length: 18\r\nAllow: GET\r\n\
            Connection: close\r\n\r\nMethod Not Allowed",
        ),
        (
            "GET /stats HTTP/1.1\r\n\r\n",
            "23: statistics by Get closes false",
        ),
        (
            "HEAD /stats?a=b HTTP/1.0\r\nContent-Length: 1\r\n\r\n.",
            "48: statistics by Head closes true",
        ),
        (
            "POST /stats HTTP/1.1\r\n\r\n",
            "24: HTTP/1.1 411 Length Required\r\nContent-Type: text/plain\r\nContent-Length: 15\r\nConnection: close\r\n\r\n\
            Length Required",
        ),
        (
            "GET /stats/ HTTP/1.1\r\n\r\n",
            "24: HTTP/1.1 404 Not Found\r\nContent-Type: text/plain\r\nContent-Length: 9\r\n\r\nNot Found",
        ),
        (
            "POST /json HTTP/1.1\r\nTransfer-Encoding: chunked\r\n\r\n",
            "51: HTTP/1.1 411 Length Required\r\nContent-Type: text/plain\r\nContent-Length: 15\r\nConnection: close\r\n\r\n\
            Length Required",
        ),
        (
            "POST /json HTTP/1.1\r\nContent-Length: 1048577\r\n\r\n",
            "48: HTTP/1.1 413 Payload Too Large\r\nContent-Type: text/plain\r\nContent-Length: 17\r\nConnection: close\r\n\r\n\
            Payload Too Large",
        ),
        (
            "POST /json HTTP/1.0\r\ncontent-length: 68\r\n\r\n\
            {\"domain\":\"d\",\"descriptors\":[{\"entries\":[{\"key\":\"k\",\"value\":\"a\"}]}]}",
            "111: check of 1 closes true",
        ),
        (
            "POST /json HTTP/1.1\r\nContent-Length: 1048576\r\n\r\n{",
            "1048624 bytes, body sent true",
        ),
        (
            "HEAD / HTTP/1.1\r\nContent-Length: 1\r\n\r\n",
            "39 bytes, body sent false",
        ),
        ("\r\n\n", "no head, blank true"),
        ("\r\n\r", "no head, blank false"),
    ] {
        let found = shown(alloc, bytes.as_bytes())?;
        assert_eq!(rt; found.as_str(), want, "of {bytes:?}");
    }
    Ok(())
}

// So many line feeds before a request line, or so many lines of a head.
fn with_lines(
    alloc: Global,
    first: &str,
    line: &str,
    count: usize,
    last: &str,
) -> Result<Vec<u8>, Fail> {
    let mut bytes = Vec::from_slice(alloc, first.as_bytes())?;
    for _ in 0..count {
        bytes.extend_from_slice(line.as_bytes())?;
    }
    bytes.extend_from_slice(last.as_bytes())?;
    Ok(bytes)
}

#[test]
fn a_head_has_at_most_16_384_bytes_and_64_fields(rt: HostRuntime) -> Result<(), Fail> {
    let alloc = rt.alloc();
    for (first, line, count, last, want) in [
        ("", "\n", 16_383, "", "no head, blank true"),
        ("", "\n", 16_384, "", "16384: HTTP/1.1 431 Requ"),
        (
            "GET / HTTP/1.1\n",
            "a:b\n",
            4_092,
            "",
            "no head, blank false",
        ),
        (
            "GET / HTTP/1.1\n",
            "a:b\n",
            4_093,
            "",
            "16384: HTTP/1.1 431 Requ",
        ),
        (
            "GET / HTTP/1.1\n",
            "a:b\n",
            64,
            "\n",
            "272: HTTP/1.1 404 Not Fo",
        ),
        (
            "GET / HTTP/1.1\n",
            "a:b\n",
            65,
            "\n",
            "276: HTTP/1.1 431 Reques",
        ),
    ] {
        let bytes = with_lines(alloc, first, line, count, last)?;
        let found = shown(alloc, &bytes)?;
        assert!(rt; found.as_str().starts_with(want), "{count} lines: {found}");
    }
    Ok(())
}

#[test]
fn each_status_has_its_phrase(rt: HostRuntime) -> Result<(), Fail> {
    let mut out = String::new(rt.alloc());
    for (number, want) in [
        (200, "200 OK"),
        (400, "400 Bad Request"),
        (404, "404 Not Found"),
        (405, "405 Method Not Allowed"),
        (411, "411 Length Required"),
        (413, "413 Payload Too Large"),
        (429, "429 Too Many Requests"),
        (431, "431 Request Header Fields Too Large"),
        (500, "500 Internal Server Error"),
        (503, "503 Service Unavailable"),
    ] {
        let answer = HttpAnswer::plain(StatusCode::from_u16(number)?, true, true);
        print_answer(&mut out, &answer)?;
        let line = format!(in rt.alloc(); "HTTP/1.1 {want}\r\n")?;
        assert!(rt; out.as_str().starts_with(line.as_str()), "{out}");
        let is_last = number == 500 && out.as_bytes() == out_of_memory_answer(true);
        assert_eq!(rt; is_last, number == 500);
    }
    Ok(())
}
