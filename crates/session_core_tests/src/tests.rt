mod rows;

ghost use Rattle.std.specs.Prelude.{◌≡◌, None};

use front_core::Core;
use graph_value::NoMemory;
use rows::{COMMANDS, FAULTS, LINES, QUERIES, Row, SNAPSHOTS, SPANS, TRANSACTIONS};
use session_core::Session;
use std::alloc::Global;
use std::test::Fail;
use store_pass::Solo;
use world_model::GraphStore;

/// The first of a session's lines that is answered otherwise, with its reply.
fn first_wrong<S: GraphStore>(
    alloc: Global,
    rt: &S::Rt,
    store: &mut S,
    rows: &[Row],
) -> Result<Option<String>, NoMemory>
    requires { S.running store.old ≡ None }
    ensures { S.running store.new ≡ None }
{
    let mut session = Session::new();
    let mut wrong = Ok(None);
    for (line, wanted) in rows {
        let reply = session.answer(rt, alloc, line, store);
        if reply.text.as_str() != *wanted {
            wrong = format!(in alloc; "{wanted}: {}", reply.text.as_str()).map(Some);
            break;
        }
    }
    session.end(rt, alloc, store);
    wrong
}

/// The same, over a new store.
fn wrong_of(alloc: Global, rows: &[Row]) -> Result<Option<String>, NoMemory> {
    let mut store = Solo::over(Core::new(alloc, 1)?, 0);
    first_wrong(alloc, &(), &mut store, rows)
}

#[test]
fn queries_run_in_transactions_of_their_own(rt: HostRuntime) -> Result<(), Fail> {
    let wrong = wrong_of(rt.alloc(), &QUERIES)?;
    assert!(rt; wrong.is_none(), "{wrong:?}");
    Ok(())
}

#[test]
fn an_error_ends_the_transaction_that_begin_has_opened(rt: HostRuntime) -> Result<(), Fail> {
    let wrong = wrong_of(rt.alloc(), &TRANSACTIONS)?;
    assert!(rt; wrong.is_none(), "{wrong:?}");
    Ok(())
}

#[test]
fn a_statement_with_a_fault_is_not_run(rt: HostRuntime) -> Result<(), Fail> {
    let wrong = wrong_of(rt.alloc(), &FAULTS)?;
    assert!(rt; wrong.is_none(), "{wrong:?}");
    Ok(())
}

#[test]
fn a_query_of_an_instant_sees_what_stood_then(rt: HostRuntime) -> Result<(), Fail> {
    let wrong = wrong_of(rt.alloc(), &SNAPSHOTS)?;
    assert!(rt; wrong.is_none(), "{wrong:?}");
    Ok(())
}

#[test]
fn a_query_of_a_span_tells_since_when_and_until_when(rt: HostRuntime) -> Result<(), Fail> {
    let wrong = wrong_of(rt.alloc(), &SPANS)?;
    assert!(rt; wrong.is_none(), "{wrong:?}");
    Ok(())
}

#[test]
fn commands_leave_the_transaction_open(rt: HostRuntime) -> Result<(), Fail> {
    let wrong = wrong_of(rt.alloc(), &COMMANDS)?;
    assert!(rt; wrong.is_none(), "{wrong:?}");
    Ok(())
}

#[test]
fn blanks_at_both_ends_are_none_of_the_statement(rt: HostRuntime) -> Result<(), Fail> {
    let wrong = wrong_of(rt.alloc(), &LINES)?;
    assert!(rt; wrong.is_none(), "{wrong:?}");
    Ok(())
}
