//! A list that several owners may share.
ghost use Rattle.std.specs.Prelude.{◌≡◌, ◌<◌, ◌≤◌, [], length, take, IfOk, OnOk, OnErr, get_or, set, slice_index_or};
ghost use Rattle.std.specs.List.{insert, remove};

use crate::NoMemory;
use std::alloc::Global;
use std::marker::Model;
use std::mem;
use std::sync::Arc;

/// A list whose copies share its elements: a copy takes no memory, and an edit copies the elements first where another
/// owner has them too. Contracts see the list.
#[derive(Debug, Drop)]
pub(crate) struct Shared<T> {
    alloc: Global,
    items: Option<Arc<Vec<T>>>,
}

impl<T> Model for Shared<T> {
    ghost use Rattle.std.specs.Prelude.{List};
    ghost use Rattle.graph_record.specs.Shared.{shared_items};

    ghost Value = { List T };

    ghost view = { λ s. shared_items s.items };
}

/// An element of a shared list, which can be copied into memory of another list.
pub(crate) trait Element: Sized + Drop {
    /// The same elements in a list of their own.
    fn copy_all(alloc: Global, items: &[Self]) -> Result<Vec<Self>, NoMemory>
        ensures { IfOk result (λ v. v.items ≡ items.now) };
}

impl<T> Shared<T> {
    /// A list without elements. Takes no memory.
    pub(crate) fn new(alloc: Global) -> Shared<T>
        ensures { result ≡ [] }
    {
        Shared { alloc, items: None }
    }

    pub(crate) fn as_slice(&self) -> &[T]
        ensures { result.now ≡ self.now }
    {
        match &self.items {
            Some(items) => items.as_slice(),
            None => &[],
        }
    }

    /// The same list, whose elements are shared from now on. It allocates nothing: the error says that the list has as
    /// many owners as can be counted.
    pub(crate) fn copy(&self) -> Result<Shared<T>, NoMemory>
        ensures { IfOk result (λ s. s ≡ self.now) }
    {
        match &self.items {
            Some(items) => Ok(Shared {
                alloc: self.alloc,
                items: Some(Arc::try_clone(items)?),
            }),
            None => Ok(Shared {
                alloc: self.alloc,
                items: None,
            }),
        }
    }
}

impl<T: Element> Shared<T> {
    /// Puts the element at the place. Without memory nothing changes.
    pub(crate) fn insert(&mut self, at: usize, element: T) -> Result<(), NoMemory>
        requires in_range { at ≤ length self.old }
        ensures ok { OnOk result (self.new ≡ insert self.old at element) }
        ensures err { OnErr result (self.new ≡ self.old) }
    {
        match &mut self.items {
            Some(shared) => match Arc::get_mut(shared) {
                Some(own) => {
                    reserve_one(own)?;
                    own.insert(at, element)?;
                    Ok(())
                }
                None => {
                    let mut own = T::copy_all(self.alloc, shared.as_slice())?;
                    reserve_one(&mut own)?;
                    own.insert(at, element)?;
                    *shared = Arc::new(self.alloc, own)?;
                    Ok(())
                }
            },
            None => {
                let mut own = Vec::new(self.alloc);
                reserve_one(&mut own)?;
                own.insert(at, element)?;
                self.items = Some(Arc::new(self.alloc, own)?);
                Ok(())
            }
        }
    }

    /// Takes the element at the place out. Only a list with another owner can want for memory, and then nothing changes.
    pub(crate) fn remove(&mut self, at: usize) -> Result<T, NoMemory>
        requires in_range { at < length self.old }
        ensures ok { OnOk result (self.new ≡ remove self.old at) }
        ensures value { IfOk result (λ x. x ≡ slice_index_or self.old at x) }
        ensures err { OnErr result (self.new ≡ self.old) }
    {
        match &mut self.items {
            Some(shared) => match Arc::get_mut(shared) {
                Some(own) => Ok(own.remove(at)),
                None => {
                    let mut own = T::copy_all(self.alloc, shared.as_slice())?;
                    let element = own.remove(at);
                    *shared = Arc::new(self.alloc, own)?;
                    Ok(element)
                }
            },
            None => unreachable!(),
        }
    }

    /// Keeps the first elements, so many. Only a list with another owner can want for memory, and then nothing changes.
    pub(crate) fn truncate(&mut self, len: usize) -> Result<(), NoMemory>
        ensures ok { OnOk result (self.new ≡ take len self.old) }
        ensures err { OnErr result (self.new ≡ self.old) }
    {
        match &mut self.items {
            Some(shared) => match Arc::get_mut(shared) {
                Some(own) => {
                    own.truncate(len);
                    Ok(())
                }
                None => {
                    let kept = shared.len().min(len);
                    let own = T::copy_all(self.alloc, &shared.as_slice()[..kept])?;
                    *shared = Arc::new(self.alloc, own)?;
                    Ok(())
                }
            },
            None => Ok(()),
        }
    }
}

impl<K: Drop, V: Drop> Shared<(K, V)>
where
    (K, V): Element,
{
    /// Puts the value in the place of the one that stands there under the same key, and gives that back. Only a list with
    /// another owner can want for memory, and then nothing changes.
    pub(crate) fn replace_value(&mut self, at: usize, value: V) -> Result<V, NoMemory>
        requires in_range { at < length self.old }
        ensures ok { (e : K × V) → OnOk result (self.new
            ≡ set self.old at ((get_or self.old at e).0, value)) }
        ensures former { (e : K × V) → IfOk result (λ former.
            former ≡ (get_or self.old at e).1) }
        ensures err { OnErr result (self.new ≡ self.old) }
    {
        match &mut self.items {
            Some(shared) => match Arc::get_mut(shared) {
                Some(own) => Ok(mem::replace(&mut own[at].1, value)),
                None => {
                    let mut own = <(K, V)>::copy_all(self.alloc, shared.as_slice())?;
                    let former = mem::replace(&mut own[at].1, value);
                    *shared = Arc::new(self.alloc, own)?;
                    Ok(former)
                }
            },
            None => unreachable!(),
        }
    }
}

/// A list with fewer elements than this has no more room than it needs.
const FEW: usize = 8;

/// Makes room for one more element. Most lists are short, and stay so.
fn reserve_one<T>(list: &mut Vec<T>) -> Result<(), NoMemory>
    ensures { list.new.items ≡ list.old.items }
{
    if list.len() < FEW {
        list.reserve_exact(1)
    } else {
        list.reserve(1)
    }
}
