//! Lists, which contracts see as the lists of their elements.

ghost use Rattle.std.specs.Prelude.{◌≡◌, [], ◌∷◌, ◌++◌, ◌<◌, length, take, drop, slice_get, remove, IfOk, OnOk, OnErr, OnSome};
ghost use Rattle.std.specs.Option.{option_copied};

use crate::duplicate::Duplicate;
use std::alloc::{AllocError, Global};
use std::marker::Model;

/// A growing list, that contracts see as the list of its elements. It keeps its allocator.
#[derive(Debug, Drop)]
pub struct List<T> {
    items: Vec<T>,
}

impl<T> Model for List<T> {
    ghost use Rattle.std.specs.Prelude.{List as Items};
    ghost use Rattle.std.specs.Coded.{coded_list};

    ghost Value = { Items T };

    ghost coded = { coded_list T.code };

    ghost view = { λ l. l.items.items };
}

impl<T> List<T> {
    ghost use Rattle.std.specs.Borrow.{Lends, sem, Array};
    ghost use Rattle.tt_value.specs.contracts.list.List.{the_row};

    /// An empty list. It takes no memory.
    pub fn new(alloc: Global) -> List<T>
        ensures { result ≡ [] }
    {
        List {
            items: Vec::new(alloc),
        }
    }

    /// The list of a vector's elements.
    pub fn from_vec(items: Vec<T>) -> List<T>
        ensures { result ≡ items.items }
    {
        List { items }
    }

    /// The elements as a vector.
    pub fn into_vec(self) -> Vec<T>
        ensures { result.items ≡ self }
    {
        let List { items } = self;
        items
    }

    /// The elements in their order, to be changed where they lie. It takes no memory.
    pub fn as_mut_slice(&mut self) -> &mut [T]
        ensures* writes_back { sem 𝓛 (Lends (the_row T.row) (Array T.row 0) self.entry result (λ w. take (length self.old) (w ++ drop (length w) self.old))) }
        ensures value { result.now ≡ self.old }
    {
        self.items.as_mut_slice()
    }

    /// The elements in their order.
    pub fn as_slice(&self) -> &[T]
        ensures { result.now ≡ self.now }
    {
        self.items.as_slice()
    }

    /// How many elements there are.
    pub fn len(&self) -> usize
        ensures { result ≡ length self.now }
    {
        self.items.len()
    }

    /// The element at an index, the first being 0; `None` past the last.
    pub fn get(&self, index: usize) -> Option<&T>
        ensures value { option_copied result ≡ slice_get self.now index }
        ensures within { OnSome result (index < length self.now) }
    {
        self.items.get(index)
    }
}

impl<T: Drop> List<T> {
    /// Puts an element behind the last. Where memory is wanting the list stays as it was.
    pub fn push(&mut self, item: T) -> Result<(), AllocError>
        ensures ok { OnOk result (self.new ≡ self.old ++ item ∷ []) }
        ensures err { OnErr result (self.new ≡ self.old) }
    {
        self.items.push(item)?;
        Ok(())
    }

    /// Takes the element at an index out of the list.
    pub fn remove(&mut self, index: usize) -> T
        requires { index < length self.old }
        ensures item { slice_get self.old index ≡ Some result }
        ensures rest { self.new ≡ remove self.old index }
    {
        self.items.remove(index)
    }
}

impl<T: Copy> List<T> {
    /// Puts the elements of a slice of the same length in place of its own. It takes no memory.
    pub fn copy_from_slice(&mut self, from: &[T])
        requires { length from.now ≡ length self.old }
        ensures { self.new ≡ from.now }
    {
        self.items.copy_from_slice(from);
    }
}

impl<T: Duplicate + Drop> List<T> {
    /// An equal list, of copies of the elements.
    pub fn copy(&self) -> Result<List<T>, AllocError>
        ensures { IfOk result (λ c. c ≡ self.now) }
    {
        let alloc = *self.items.allocator();
        let mut copied = Vec::with_capacity(alloc, self.items.len())?;
        for item in self.items.as_slice() {
            copied.push(item.duplicate(alloc)?)?;
        }
        Ok(List { items: copied })
    }
}

impl<T: Duplicate + Drop> Duplicate for List<T> {
    fn duplicate(&self, _alloc: Global) -> Result<List<T>, AllocError> {
        self.copy()
    }
}
