// The answer to one front.
ghost use Rattle.std.specs.Prelude.{◌≡◌, ◌||◌, false, true, None, Ok, Err, IfOk, if◌then◌else◌};
ghost use Rattle.http_front.specs.Front.{is_waiting, plain};
ghost use Rattle.http_endpoint.specs.Answers as answers;
ghost use Rattle.http_endpoint.specs.Printing as printing;
ghost use Rattle.http_endpoint.specs.Steps as steps;

use crate::{Checks, Page};
use http::StatusCode;
use http_front::{Front, HttpAnswer, Method, out_of_memory_answer, sends_body, stats_answer};
use rate_io::Link;
use rate_types::{OutOfMemory, Request, Word};
use reply_text::{Statuses, reply_body};
use rls_core::{CheckFault, Reply};
use std::alloc::Global;
use std::sync::Wait;

/// What was printed: an answer's text, or want of memory in its place.
#[derive(Clone, Copy, Debug, PartialEq, Eq)]
pub enum Printed {
    Text { closes: bool },
    NoMemory { sends_body: bool },
}

impl Printed {
    /// The bytes to write, where this is what was printed into the text.
    pub fn bytes<'a>(&self, out: &'a str) -> &'a [u8]
        ensures { result.now ≡ printing.printed_bytes out.now self.now }
    {
        match self {
            Printed::Text { .. } => out.as_bytes(),
            Printed::NoMemory { sends_body } => out_of_memory_answer(*sends_body),
        }
    }

    /// The connection closes after it.
    pub fn closes(&self) -> bool
        ensures { result ≡ printing.printed_closes self.now }
    {
        match self {
            Printed::Text { closes } => *closes,
            Printed::NoMemory { .. } => true,
        }
    }
}

// The answer printed, or want of memory in its place.
fn print(out: &mut Page, answer: &HttpAnswer) -> Printed
    ensures { printing.Prints answer.now out.new result }
{
    match out.print(answer) {
        Ok(()) => Printed::Text {
            closes: answer.closes,
        },
        Err(_) => Printed::NoMemory {
            sends_body: answer.sends_body,
        },
    }
}

// The status of an answered check.
fn status_of(reply: &Reply) -> StatusCode
    ensures { result ≡ (if reply.now.over then 429 else 200) }
{
    if reply.over {
        StatusCode::TOO_MANY_REQUESTS
    } else {
        StatusCode::OK
    }
}

// The answer that gives a reply.
fn reply_answer(alloc: Global, reply: &Reply, closes: bool) -> Result<HttpAnswer, OutOfMemory>
    ensures { IfOk result (λ answer. answer ≡ answers.reply_answer reply.now closes) }
{
    let statuses = Statuses::of_reply(alloc, reply)?;
    let text = reply_body(alloc, &statuses)?;
    Ok(HttpAnswer::json(status_of(reply), Word::of(text), closes))
}

fn print_reply(alloc: Global, out: &mut Page, reply: &Reply, closes: bool) -> Printed
    ensures { printing.PrintsResult closes (Ok reply.now) out.new result }
{
    match reply_answer(alloc, reply, closes) {
        Ok(answer) => print(out, &answer),
        Err(_) => Printed::NoMemory { sends_body: true },
    }
}

// The answer where the counters are full.
fn print_full(out: &mut Page, closes: bool) -> Printed
    ensures { printing.Prints (plain 503 None true closes) out.new result }
{
    let answer = HttpAnswer::plain(StatusCode::SERVICE_UNAVAILABLE, true, closes);
    print(out, &answer)
}

// The answer to a check that was refused.
#[tactic(auto, using(crate::proofs::TurnLemmas::full_prints, crate::proofs::TurnLemmas::spent_prints))]
fn print_fault(out: &mut Page, fault: CheckFault, closes: bool) -> Printed
    ensures { printing.PrintsResult closes (Err fault) out.new result }
{
    match fault {
        CheckFault::CountersFull { .. } => print_full(out, closes),
        CheckFault::ClaimsSpent { .. } => print_full(out, closes),
        CheckFault::OutOfMemory => Printed::NoMemory { sends_body: true },
    }
}

/// The answer to what came of a check, printed into the text.
pub fn print_result(
    alloc: Global,
    out: &mut Page,
    came: Result<Reply, CheckFault>,
    closes: bool,
) -> Printed
    ensures { printing.PrintsResult closes came out.new result }
{
    match came {
        Ok(reply) => print_reply(alloc, out, &reply, closes),
        Err(fault) => print_fault(out, fault, closes),
    }
}

/// The answer to a request for the statistics that came to this, printed into the text.
pub fn print_stats(
    out: &mut Page,
    method: Method,
    came: Result<Option<Word>, OutOfMemory>,
    closes: bool,
) -> Printed
    ensures { printing.PrintsStats method closes came out.new result }
{
    match came {
        Ok(text) => print(out, &stats_answer(method, text, closes)),
        Err(_) => Printed::NoMemory {
            sends_body: sends_body(method),
        },
    }
}

/// The connection closes after an answer that says so, and after the last that may come.
pub fn closes_after(closes: bool, is_last: bool) -> bool
    ensures { result ≡ (closes || is_last) }
{
    closes || is_last
}

/// The answer to a fixed front, printed into the text.
pub fn answer_fixed(out: &mut Page, mut answer: HttpAnswer, is_last: bool) -> Printed
    ensures { printing.Prints (answers.closing is_last answer) out.new result }
{
    answer.closes = closes_after(answer.closes, is_last);
    print(out, &answer)
}

/// The answer to a front that waits for no byte, printed into the text. The clock is asked just before the check.
/// `is_last` closes the connection after it.
pub fn answer_front<R: Wait, N: Link, K: Checks>(
    rt: &R,
    alloc: Global,
    checks: &mut K,
    link: &mut N,
    front: Front,
    is_last: bool,
    out: &mut Page,
) -> Printed
    requires { is_waiting front ≡ false }
    ensures { steps.TurnsOut K.answers is_last front (N.state link.old) (N.state link.new) checks.old checks.new out.new result }
{
    match front {
        Front::Fixed { answer, .. } => answer_fixed(out, answer, is_last),
        Front::Check {
            request,
            closes,
            ..
        } => {
            let closes = closes_after(closes, is_last);
            let moment = link.now();
            let came = checks.check(rt, alloc, &request, moment);
            print_result(alloc, out, came, closes)
        }
        Front::Stats { method, closes, .. } => {
            let closes = closes_after(closes, is_last);
            let came = checks.stats(alloc);
            print_stats(out, method, came, closes)
        }
        Front::Ended | Front::CutShort => unreachable!(),
    }
}
