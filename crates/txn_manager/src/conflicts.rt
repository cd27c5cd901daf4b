ghost use Rattle.std.specs.Prelude.{◌≡◌};
ghost use Rattle.txn_manager.specs.Conflict.{rival_of};

use crate::Rival;

/// Who stands in the way of a write by the transaction that began at `start`.
///
/// `other_writer` is the start of another open transaction that has written the object, and `newest_commit` the timestamp of the object's last commit.
pub fn rival(start: u64, other_writer: Option<u64>, newest_commit: Option<u64>) -> Option<Rival>
    ensures { result ≡ rival_of start other_writer newest_commit }
{
    if let Some(other) = other_writer {
        return Some(Rival::Running { start: other });
    }
    match newest_commit {
        Some(ts) if start < ts => Some(Rival::Committed { ts }),
        _ => None,
    }
}
