// Where the front of a chain ends: the entries of a kind that only open or later ones can be of stand first.
ghost use Rattle.std.specs.Prelude.{◌≡◌, ◌≤◌, filter, take, drop};
ghost use Rattle.std.specs.List.{prefix_len};
ghost use Rattle.std.specs.VecDeque.{deque_len};
ghost use Rattle.version_chain.specs.Entry.{is_after, is_not_before};
ghost use Rattle.version_chain.specs.Order.{IsInOrder};

use crate::Entry;
use std::collections::VecDeque;

/// How many entries are open or were committed after t. Reads these and one more.
pub fn count_after<D>(entries: &VecDeque<Entry<D>>, t: u64) -> usize
    ensures first { result ≡ prefix_len (is_after t) entries.now.items }
    ensures bound { result ≤ deque_len entries.now }
{
    let mut count = 0;
    while count < entries.len() && entries[count].is_after(t) {
        count += 1;
    }
    count
}

/// How many entries weren't committed before the mark. Reads one of these and all others.
pub fn count_not_before<D>(entries: &VecDeque<Entry<D>>, mark: u64) -> usize
    requires { IsInOrder entries.now.items }
    ensures first { result ≡ prefix_len (is_not_before mark) entries.now.items }
    ensures bound { result ≤ deque_len entries.now }
{
    let mut count = entries.len();
    while count > 0 && entries[count - 1].is_before(mark) {
        count -= 1;
    }
    count
}
