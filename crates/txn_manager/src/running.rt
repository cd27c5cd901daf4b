ghost use Rattle.std.specs.Prelude.{◌≡◌, ◌+◌, ◌==◌, ◌≢◌, AllPairs, IsSome, length, position};
ghost use Rattle.txn_manager.specs.RunningList.{start_of, without};

/// One open transaction.
#[derive(Clone, Copy, Debug, PartialEq, Eq)]
pub struct Running {
    /// Whose transaction it is.
    pub caller: u64,
    /// When it began.
    pub start: u64,
}

/// Where the caller's transaction stands in the list.
pub(crate) fn place_of(running: &[Running], caller: u64) -> Option<usize>
    ensures { result ≡ position (λ t. t.caller == caller) running.now }
{
    running.iter().position(|t| t.caller == caller)
}

/// Takes the caller's transaction out of the list, and gives its start.
pub(crate) fn take_out(running: &mut Vec<Running>, caller: u64) -> u64
    requires present { IsSome (start_of running.old.items caller) }
    requires apart { AllPairs (λ t u. t.caller ≢ u.caller) running.old.items }
    ensures start { start_of running.old.items caller ≡ Some result }
    ensures others { running.new.items ≡ without caller running.old.items }
    ensures fewer { length running.new.items + 1 ≡ length running.old.items }
{
    let place = place_of(running, caller).unwrap();
    running.remove(place).start
}
