ghost use Rattle.std.specs.Prelude.{◌≡◌, IfOk};

use graph_value::NoMemory;
use sqlite_items::Items;
use std::alloc::Global;
use std::collections::VecDeque;

/// Items from which the first can be moved out.
pub(crate) fn queue<T: Drop>(alloc: Global, mut items: Items<T>) -> Result<VecDeque<T>, NoMemory>
    ensures { IfOk result (λ q. q.items ≡ items) }
{
    let mut queue = VecDeque::with_capacity(alloc, items.len())?;
    while let Some(last) = items.pop() {
        queue.push_front(last)?;
    }
    Ok(queue)
}
