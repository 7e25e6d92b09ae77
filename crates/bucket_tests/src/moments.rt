use agenda::Agenda;
use std::alloc::Global;
use std::test::Fail;

// The indices that a moment reaches, each with a space after it.
fn reached(alloc: Global, agenda: &Agenda, at: u64) -> Result<String, Fail> {
    let mut told = String::new(alloc);
    for index in agenda.reached(alloc, at)? {
        told.push_str(&format!(in alloc; "{index} ")?)?;
    }
    Ok(told)
}

#[test]
fn an_agenda_tells_what_a_moment_reaches(rt: HostRuntime) -> Result<(), Fail> {
    let alloc = rt.alloc();
    let mut moments = Vec::new(alloc);
    for moment in [Some(50), Some(10), None, Some(u64::MAX), Some(70)] {
        moments.push(moment)?;
    }
    let mut agenda = Agenda::of(alloc, moments)?;
    let rows = [
        (9, ""),
        (10, "1 "),
        (49, "1 "),
        (50, "0 1 "),
        (u64::MAX - 1, "0 1 4 "),
        (u64::MAX, "0 1 3 4 "),
    ];
    for (at, want) in rows {
        assert_eq!(rt; reached(alloc, &agenda, at)?.as_str(), want, "at {at}");
    }
    assert_eq!(rt; agenda.len(), 5);
    agenda.set(4, Some(5));
    agenda.set(1, None);
    agenda.set(2, Some(91));
    let rows = [
        (4, ""),
        (5, "4 "),
        (50, "0 4 "),
        (91, "0 2 4 "),
        (u64::MAX, "0 2 3 4 "),
    ];
    for (at, want) in rows {
        assert_eq!(rt; reached(alloc, &agenda, at)?.as_str(), want, "at {at}");
    }
    Ok(())
}

#[test]
fn an_empty_agenda_has_no_index(rt: HostRuntime) -> Result<(), Fail> {
    let agenda = Agenda::empty(rt.alloc());
    assert_eq!(rt; agenda.len(), 0);
    assert_eq!(rt; reached(rt.alloc(), &agenda, u64::MAX)?.as_str(), "");
    Ok(())
}
