// What comes of what a pass is asked, in words.
use counter_cells::CellNaming;
use rate_limiter::Pass;
use rls_core::{Code, Count, Reply, Status};
use std::alloc::Global;
use std::fmt::Debug;
use std::test::Fail;

fn code_word(code: Code) -> &'static str {
    match code {
        Code::Ok => "ok",
        Code::OverLimit => "over",
    }
}

fn status_text(alloc: Global, status: &Status) -> Result<String, Fail> {
    let code = code_word(status.code);
    Ok(match status.count {
        Count::NoCount => format!(in alloc; "{code}")?,
        Count::Before(before) => format!(in alloc; "{code} before {before}")?,
        Count::Seen(seen) => format!(in alloc; "{code} seen {seen}")?,
    })
}

// The code and the count of each status.
fn reply_text(alloc: Global, reply: &Reply) -> Result<String, Fail> {
    let mut told = String::new(alloc);
    for status in reply.statuses.as_slice() {
        if !told.is_empty() {
            told.push_str(", ")?;
        }
        told.push_str(&status_text(alloc, status)?)?;
    }
    Ok(told)
}

/// The codes and counts of a reply, or why there is none.
pub fn answer_text<E: Debug + Drop>(
    alloc: Global,
    answer: Result<Reply, E>,
) -> Result<String, Fail> {
    match answer {
        Ok(reply) => reply_text(alloc, &reply),
        Err(fault) => Ok(format!(in alloc; "{fault:?}")?),
    }
}

/// What a pass shows of itself.
pub fn pass_text<N: CellNaming>(alloc: Global, pass: &Pass<N>) -> Result<String, Fail> {
    Ok(format!(in alloc;
        "version {}, moment {}, {} looks, {} refused",
        pass.version(),
        pass.moment().get(),
        pass.looks(),
        pass.refused()
    )?)
}
