mod hostile;
mod rows;
mod stories;

use graph_value::NoMemory;
use hostile::{TRIALS, Trial};
use rows::{NAMES, RIVALS, Row};
use script_desk::Desk;
use std::alloc::Global;
use std::test::Fail;
use stories::{ACCOUNTS, AUDIT, PERMISSIONS};

/// The first line that is answered otherwise, with its reply.
fn first_wrong(alloc: Global, desk: &mut Desk, rows: &[Row]) -> Result<Option<String>, NoMemory> {
    let mut reply = String::new(alloc);
    for (line, wanted) in rows {
        desk.answer(alloc, line, &mut reply)?;
        if reply.as_str() != *wanted {
            return Ok(Some(format!(in alloc; "{wanted}: {reply}")?));
        }
    }
    Ok(None)
}

fn wrong_of(alloc: Global, rows: &[Row]) -> Result<Option<String>, NoMemory> {
    let mut desk = Desk::new(alloc, 1)?;
    let wrong = first_wrong(alloc, &mut desk, rows);
    desk.end(alloc);
    wrong
}

#[test]
fn the_first_writer_stays(rt: HostRuntime) -> Result<(), Fail> {
    let wrong = wrong_of(rt.alloc(), &RIVALS)?;
    assert!(rt; wrong.is_none(), "{wrong:?}");
    Ok(())
}

#[test]
fn a_line_without_a_session_touches_none(rt: HostRuntime) -> Result<(), Fail> {
    let wrong = wrong_of(rt.alloc(), &NAMES)?;
    assert!(rt; wrong.is_none(), "{wrong:?}");
    Ok(())
}

#[test]
fn a_line_that_is_too_long_is_no_sessions(rt: HostRuntime) -> Result<(), Fail> {
    let alloc = rt.alloc();
    let mut desk = Desk::new(alloc, 1)?;
    let mut reply = String::new(alloc);
    let told = desk.answer_long(&mut reply);
    desk.end(alloc);
    told?;
    assert!(rt; reply.as_str() == "-: ERR 1 line too long\n", "{reply:?}");
    Ok(())
}

/// What a new desk answers the lines of a script.
fn replies(alloc: Global, script: &str) -> Result<String, NoMemory> {
    let mut desk = Desk::new(alloc, 1)?;
    let told = push_replies(alloc, &mut desk, script);
    desk.end(alloc);
    told
}

fn push_replies(alloc: Global, desk: &mut Desk, script: &str) -> Result<String, NoMemory> {
    let mut all = String::new(alloc);
    let mut reply = String::new(alloc);
    for line in script.split('\n') {
        desk.answer(alloc, line.as_bytes(), &mut reply)?;
        all.push_str(reply.as_str())?;
    }
    Ok(all)
}

#[test]
fn stories_are_answered_so(rt: HostRuntime) -> Result<(), Fail> {
    for (script, wanted) in [ACCOUNTS, PERMISSIONS, AUDIT] {
        assert_eq!(rt; replies(rt.alloc(), script)?.as_str(), wanted);
    }
    Ok(())
}

/// The bytes of a line.
fn bytes_of(alloc: Global, trial: &Trial) -> Result<Vec<u8>, NoMemory> {
    let mut bytes = Vec::new(alloc);
    bytes.extend_from_slice(trial.front)?;
    for _ in 0..trial.count {
        bytes.extend_from_slice(trial.filling)?;
    }
    bytes.extend_from_slice(trial.middle)?;
    for _ in 0..trial.count {
        bytes.extend_from_slice(trial.closing)?;
    }
    Ok(bytes)
}

/// The first reply to the line that isn't the one that is wanted.
fn wrong_reply(alloc: Global, desk: &mut Desk, trial: &Trial) -> Result<Option<String>, NoMemory> {
    let bytes = bytes_of(alloc, trial)?;
    let mut reply = String::new(alloc);
    for _ in 0..trial.times {
        desk.answer(alloc, bytes.as_slice(), &mut reply)?;
        if reply.as_str() != trial.reply {
            return Ok(Some(reply));
        }
    }
    Ok(None)
}

fn first_wrong_trial(alloc: Global, desk: &mut Desk) -> Result<Option<String>, NoMemory> {
    for trial in &TRIALS {
        let wrong = wrong_reply(alloc, desk, trial)?;
        if wrong.is_some() {
            return Ok(wrong);
        }
    }
    Ok(None)
}

#[test]
fn hostile_lines_are_answered_as_others(rt: HostRuntime) -> Result<(), Fail> {
    let alloc = rt.alloc();
    let mut desk = Desk::new(alloc, 1)?;
    let wrong = first_wrong_trial(alloc, &mut desk);
    desk.end(alloc);
    let wrong = wrong?;
    assert!(rt; wrong.is_none(), "{wrong:?}");
    Ok(())
}

/// Begins transactions of so many sessions, and gives the last reply.
fn all_begin(alloc: Global, desk: &mut Desk, count: u64) -> Result<String, NoMemory> {
    let mut reply = String::new(alloc);
    for number in 0..count {
        let line = format!(in alloc; "s{number}: BEGIN")?;
        desk.answer(alloc, line.as_bytes(), &mut reply)?;
    }
    Ok(reply)
}

#[test]
fn the_last_of_1025_sessions_finds_no_place(rt: HostRuntime) -> Result<(), Fail> {
    let alloc = rt.alloc();
    let mut desk = Desk::new(alloc, 1)?;
    let told = all_begin(alloc, &mut desk, 1025);
    let next = push_replies(alloc, &mut desk, "s3: ROLLBACK\ns1024: BEGIN");
    desk.end(alloc);
    assert_eq!(rt; told?.as_str(), "s1024: ERR 18 too many transactions\n");
    assert_eq!(rt;
        next?.as_str(),
        "s3: OK rollback\ns1024: OK begin at 1025\n"
    );
    Ok(())
}
