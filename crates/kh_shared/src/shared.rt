// The shared pointer: two blocks, the count of its owners and the value.
// `of_counted`, `share`, `as_ref`, `same_place` and `step_down` alone touch the memory.
ghost use Rattle.std.specs.Prelude.{◌≡◌, ◌<◌, ◌-◌, ◌^◌, IfOk, IfSome, IsTrue};
ghost use base.Stored.{Gv};
ghost use Rattle.kh_shared.specs.Mark.{coded_mark, IsMarked};
ghost use Rattle.kh_shared.specs.Ownership.{blocks, shared_owns, shared_lends};

use crate::error::NoMemory;
use crate::parts::Parts;
use std::alloc::Global;
use std::marker::Model;

/// A value with several owners, of which this is one.
pub struct Shared<T> {
    count: *mut usize,
    at: *mut T,
    alloc: Global,
    pub ghost value: { T },
    pub ghost mark: { Gv } by { coded_mark },
}

impl<T> Model for Shared<T> {
    ghost also_owns = { λ s. shared_owns T.row (blocks s.alloc s.count s.at s.mark) s.value };

    ghost also_shares = { λ s _. shared_lends T.row (blocks s.alloc s.count s.at s.mark) s.value };
}

impl<T> Shared<T> {
    /// The first owner of a value. At `NoMemory` the value is dropped, and no memory is kept.
    pub fn new(alloc: Global, value: T) -> Result<Shared<T>, NoMemory>
    where
        T: Drop,
        ensures value { IfOk result (λ shared. shared.value ≡ value) }
        ensures marked { IfOk result (λ shared. IsMarked T.row shared.value shared.mark) }
    {
        let count = Box::new(alloc, 1usize)?;
        let value = Box::new(alloc, value)?;
        Ok(Shared::of_parts(Parts::of(count), Parts::of(value)))
    }

    // The count, which is 1, and the value become a first owner.
    fn of_parts(count: Parts<usize, Global>, value: Parts<T, Global>) -> Shared<T>
        requires one { count.value ≡ 1 }
        requires alloc { count.alloc ≡ value.alloc }
        ensures value { result.value ≡ value.value }
        ensures marked { IsMarked T.row result.value result.mark }
    {
        Shared::of_counted(count, value)
    }

    // One of the owners that the count says. The others are forgotten, as if never dropped.
    pub(crate) fn of_counted(count: Parts<usize, Global>, value: Parts<T, Global>) -> Shared<T>
        requires some { 0 < count.value }
        requires room { count.value < 2 ^ 64 - 1 }
        requires alloc { count.alloc ≡ value.alloc }
        ensures value { result.value ≡ value.value }
        ensures marked { IsMarked T.row result.value result.mark }
    {
        let Parts {
            at: count,
            alloc: _,
        } = count;
        let Parts { at, alloc } = value;
        Shared { count, at, alloc }
    }

    /// One more owner of the same value. It takes no memory and always succeeds.
    pub fn share(&self) -> Shared<T>
        ensures { result ≡ self.now }
    {
        let count = self.count;
        let at = self.at;
        let alloc = self.alloc;
        unsafe {
            let owners = *count;
            if owners != usize::MAX {
                *count = owners + 1;
            }
        }
        Shared { count, at, alloc }
    }

    /// The value.
    pub fn as_ref(&self) -> &T
        ensures { result.now ≡ self.now.value }
    {
        unsafe { &*self.at }
    }

    /// Whether the two are owners of one value. It reads no value and takes no memory.
    ///
    /// Equal values follow where each of the two has the mark of its value, which `new` gives and
    /// `share` keeps. That is no invariant of every pointer, since what a recursive type owns may
    /// not rest on it: a type that compares by place says it in an invariant of its own.
    pub fn same_place(&self, other: &Shared<T>) -> bool
        ensures mark { IsTrue result → self.now.mark ≡ other.now.mark }
        ensures value { IsTrue result → IsMarked T.row self.now.value self.now.mark
            → IsMarked T.row other.now.value other.now.mark → self.now.value ≡ other.now.value }
        ensures found { self.now ≡ other.now → IsTrue result }
    {
        let mine = self.count;
        let others = other.count;
        unsafe {
            let owners = *mine;
            *mine = 0;
            let same = *others == 0;
            *mine = owners;
            same
        }
    }

    // Gives this owner up. The last one gets both blocks.
    fn step_down(self) -> Option<(Parts<usize, Global>, Parts<T, Global>)>
        ensures { IfSome result (λ blocks. blocks.1.value ≡ self.value) }
    {
        let Shared { count, at, alloc } = self;
        let owners = unsafe { *count };
        if owners == usize::MAX {
            return None;
        }
        if owners != 1 {
            unsafe {
                *count = owners - 1;
                return None;
            }
        }
        Some((Parts { at: count, alloc }, Parts { at, alloc }))
    }
}

impl<T: Drop> Drop for Shared<T> {
    fn drop(self) {
        if let Some((count, value)) = self.step_down() {
            drop(count.into_box());
            drop(value.into_box());
        }
    }
}
