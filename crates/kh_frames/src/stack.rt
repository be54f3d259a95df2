// A stack, seen as the list of its items from the top.
ghost use Rattle.std.specs.Prelude.{◌≡◌, ◌+◌, ◌^◌, ◌≤◌, ◌<◌, List, [], ◌∷◌, ◌++◌, length, drop, reverse, replicate, OnOk, OnErr, slice_get, slice_set};
ghost use Rattle.std.specs.Option.{option_to_list};

use kh_term::NoMemory;
use std::alloc::Global;
use std::marker::Model;

#[derive(Drop)]
pub(crate) struct Stack<T: Copy> {
    items: Vec<T>,
}

impl<T: Copy> Model for Stack<T> {
    ghost Value = { List T };

    ghost view = { λ s. reverse s.items.items };
}

impl<T: Copy> Stack<T> {
    pub(crate) fn new(alloc: Global) -> Stack<T>
        ensures { result ≡ [] }
    {
        Stack {
            items: Vec::new(alloc),
        }
    }

    pub(crate) fn len(&self) -> usize
        ensures { result ≡ length self.now }
    {
        self.items.len()
    }

    pub(crate) fn push(&mut self, item: T) -> Result<(), NoMemory>
        ensures pushed { OnOk result (self.new ≡ item ∷ self.old) }
        ensures refused { OnErr result (self.new ≡ self.old) }
    {
        self.items.push(item)?;
        Ok(())
    }

    // Puts n copies of an item on top.
    pub(crate) fn push_copies(&mut self, n: usize, item: T) -> Result<(), NoMemory>
        requires { length self.old + n < 2 ^ 64 }
        ensures pushed { OnOk result (self.new ≡ replicate n item ++ self.old) }
        ensures refused { OnErr result (self.new ≡ self.old) }
    {
        let len = self.items.len() + n;
        self.items.resize(len, item)?;
        Ok(())
    }

    pub(crate) fn pop(&mut self) -> Option<T>
        ensures top { result ≡ slice_get self.old 0 }
        ensures rest { self.old ≡ option_to_list result ++ self.new }
    {
        self.items.pop()
    }

    // Takes the n items on top away.
    pub(crate) fn shed(&mut self, n: usize)
        requires { n ≤ length self.old }
        ensures { self.new ≡ drop n self.old }
    {
        let len = self.items.len() - n;
        self.items.truncate(len);
    }

    // The item i below the top.
    pub(crate) fn get(&self, i: usize) -> Option<T>
        ensures { result ≡ slice_get self.now i }
    {
        let len = self.items.len();
        if i < len {
            Some(self.items[len - 1 - i])
        } else {
            None
        }
    }

    pub(crate) fn set(&mut self, i: usize, item: T)
        requires { i < length self.old }
        ensures { self.new ≡ slice_set self.old i item }
    {
        let at = self.items.len() - 1 - i;
        self.items[at] = item;
    }
}
