ghost use Rattle.std.specs.Prelude.{◌≡◌, ◌↔◌, [], ◌∷◌, ◌++◌, length, slice_get, IsTrue, IfOk, IfNone, IfSome, OnOk, OnErr};
ghost use Rattle.std.specs.Option.{option_copied};

use crate::Memory;
use std::alloc::Global;
use std::marker::Model;

/// A list that owns its items. Contracts see it as the list, without the place in memory where a
/// `Vec` keeps it, so that a copy can equal what it copies; a type may hold itself through it.
#[derive(Debug, Drop)]
pub struct Items<T> {
    vec: Vec<T>,
}

/// Bytes of a file, or the code points 00 to FF of a text.
pub type Bytes = Items<u8>;

impl<T> Model for Items<T> {
    ghost use Rattle.std.specs.Prelude.{List};
    ghost use Rattle.std.specs.Coded.{coded_list};

    ghost Value = { List T };

    ghost coded = { coded_list T.code };

    ghost view = { λ list. list.vec.items };
}

impl<T> Items<T> {
    /// The list without items. It takes no memory yet.
    pub fn new(alloc: Global) -> Items<T>
        ensures empty { result ≡ [] }
    {
        Items {
            vec: Vec::new(alloc),
        }
    }

    /// The items of a `Vec`, taken over as they stand.
    pub fn from_vec(vec: Vec<T>) -> Items<T>
        ensures same { result ≡ vec.items }
    {
        Items { vec }
    }

    /// The items as a `Vec`, handed over as they stand.
    pub fn into_vec(self) -> Vec<T>
        ensures same { result.items ≡ self }
    {
        let Items { vec } = self;
        vec
    }

    pub fn len(&self) -> u64
        ensures length { result ≡ length self.now }
    {
        self.vec.len() as u64
    }

    pub fn is_empty(&self) -> bool
        ensures empty { IsTrue result ↔ (self.now ≡ []) }
    {
        self.vec.is_empty()
    }

    /// The item at a place counted from 0; `None` exactly past the end.
    pub fn get(&self, at: u64) -> Option<&T>
        ensures item { option_copied result ≡ slice_get self.now at }
    {
        self.vec.get(at as usize)
    }

    pub fn as_slice(&self) -> &[T]
        ensures items { result.now ≡ self.now }
    {
        self.vec.as_slice()
    }

    /// Takes the last item off; `None` exactly where there is none.
    pub fn pop(&mut self) -> Option<T>
        ensures last { IfSome result (λ item. self.old ≡ self.new ++ item ∷ []) }
        ensures empty { IfNone result (self.old ≡ []) }
        ensures nothing_left { IfNone result (self.new ≡ []) }
    {
        self.vec.pop()
    }
}

impl<T: Drop> Items<T> {
    /// Puts an item behind the last one. Without memory the list stays as it was.
    pub fn push(&mut self, item: T) -> Result<(), Memory>
        ensures ok { OnOk result (self.new ≡ self.old ++ item ∷ []) }
        ensures err { OnErr result (self.new ≡ self.old) }
    {
        self.vec.push(item)?;
        Ok(())
    }
}

impl<T: Copy> Items<T> {
    /// A list of copies of the items of a slice.
    pub fn from_slice(alloc: Global, items: &[T]) -> Result<Items<T>, Memory>
        ensures same { IfOk result (λ list. list ≡ items.now) }
    {
        let vec = Vec::from_slice(alloc, items)?;
        Ok(Items { vec })
    }

    /// Puts copies of the items of a slice behind the last item. Without memory the list stays as it
    /// was.
    pub fn extend_from_slice(&mut self, items: &[T]) -> Result<(), Memory>
        ensures ok { OnOk result (self.new ≡ self.old ++ items.now) }
        ensures err { OnErr result (self.new ≡ self.old) }
    {
        self.vec.extend_from_slice(items)?;
        Ok(())
    }
}
