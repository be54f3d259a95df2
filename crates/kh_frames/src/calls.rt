// The call that runs and those that wait, on three stacks: slots, marks of catches, and waiting calls.
ghost use Rattle.std.specs.Prelude.{◌≡◌, ◌^◌, ◌<◌, ◌≤◌, ◌+◌, [], not, is_some, take, length, Some, None};
ghost use Rattle.std.specs.List.{list_any};
ghost use Rattle.kh_frames.specs.Frame.{is_free, is_mark, is_marked, is_empty, newest_slot};
ghost use Rattle.kh_frames.specs.Rules.{slot_of, has_room, suspended, goes_on, resumed, unframed, allocated, deallocated, trimmed, caught, ended, filled, unwound, taken, one_call};
ghost use Rattle.kh_frames.specs.Stored.{size};
ghost use Rattle.kh_frames.specs.Valid.{IsTied, AreTied, IsWithin};
ghost use Rattle.kh_frames.specs.Answers.{Written, Judged, Led, Resumed};

use crate::error::FrameError;
use crate::stack::Stack;
use crate::state::{Extent, Mark, Place, Slot, Waiting};
use kh_heap::Ref;
use std::alloc::Global;
use std::marker::Model;

// The most slots and waiting calls together.
const LIMIT: usize = 100_000;

#[derive(Drop)]
pub(crate) struct CallStack {
    running: Extent,
    waiting: Stack<Waiting>,
    slots: Stack<Slot<Ref>>,
    marks: Stack<Mark>,
}

impl Model for CallStack {
    ghost use Rattle.kh_frames.specs.State.{Calls};
    ghost use Rattle.kh_heap.specs.declared.reference.Ref.{Ref};
    ghost use Rattle.kh_frames.specs.declared.state.Place.{Place};
    ghost use Rattle.kh_frames.specs.Stored.{calls_of, Fits};

    ghost Value = { Calls Ref Place };

    ghost view = { λ c. calls_of c.running c.waiting c.slots c.marks };

    ghost invariant = { λ c. Fits c.running c.waiting c.slots c.marks };
}

// Whether there is a marked slot.
fn is_mark(slot: Option<Slot<Ref>>) -> bool
    ensures { result ≡ is_mark slot }
{
    match slot {
        Some(Slot::Marked) => true,
        None | Some(Slot::Absent) | Some(Slot::Holds(_)) => false,
    }
}

// The slots of a call; none without a frame.
fn size(frame: Option<u32>) -> usize
    ensures { result ≡ size frame }
{
    match frame {
        Some(n) => n as usize,
        None => 0,
    }
}

// Whether one of the n slots on top is marked.
fn any_marked(slots: &Stack<Slot<Ref>>, n: usize) -> bool
    requires { n ≤ length slots.now }
    ensures { result ≡ list_any is_marked (take n slots.now) }
{
    for i in 0..n {
        if is_mark(slots.get(i)) {
            return true;
        }
    }
    false
}

impl CallStack {
    pub(crate) fn new(alloc: Global) -> CallStack
        ensures { result ≡ one_call }
    {
        CallStack {
            running: Extent {
                frame: None,
                base: 0,
            },
            waiting: Stack::new(alloc),
            slots: Stack::new(alloc),
            marks: Stack::new(alloc),
        }
    }

    // Marks and catches agree in each call, and the limit holds.
    pub(crate) fn check(&self)
        ensures running { IsTied self.now.running }
        ensures waiting { AreTied self.now.waiting }
        ensures limit { IsWithin self.now }
    {
        let _ = &self.running;
    }

    // Whether n slots or waiting calls more are within the limit.
    fn has_room(&self, n: u32) -> bool
        ensures { result ≡ has_room self.now n }
    {
        self.slots.len() + self.waiting.len() + n as usize <= LIMIT
    }

    // Whether the call that runs has catches of its own.
    fn has_own_catch(&self) -> bool
        ensures { result ≡ not (is_empty self.now.running.catches) }
    {
        self.marks.len() > self.running.base
    }

    // Whether any call has a catch.
    fn has_catch(&self) -> bool
        ensures { result ≡ is_some (unwound self.now.running self.now.waiting) }
    {
        self.marks.len() > 0
    }

    pub(crate) fn slot(&self, i: u32) -> Option<Slot<Ref>>
        ensures { result ≡ slot_of self.now i }
    {
        match self.running.frame {
            Some(n) if i < n => self.slots.get(i as usize),
            _ => None,
        }
    }

    // Whether there is a slot i, and it isn't marked.
    fn is_free(&self, i: u32) -> bool
        ensures { result ≡ is_free (slot_of self.now i) }
    {
        match self.slot(i) {
            None | Some(Slot::Marked) => false,
            Some(Slot::Absent) | Some(Slot::Holds(_)) => true,
        }
    }

    pub(crate) fn no_frame(&self) -> Result<(), FrameError>
        ensures { Judged (unframed self.now) self.now result self.now }
    {
        match self.running.frame {
            None => Ok(()),
            Some(_) => Err(FrameError::BadCode),
        }
    }

    pub(crate) fn suspend(&mut self, back: Place) -> Result<(), FrameError>
        ensures { Written (suspended back self.old) self.old result self.new }
    {
        if !self.has_room(1) {
            return Err(FrameError::Limit);
        }
        let extent = self.running;
        self.waiting.push(Waiting { back, extent })?;
        let base = self.marks.len();
        self.running = Extent { frame: None, base };
        Ok(())
    }

    // Ends the call that runs, with its frame, where another waits.
    fn leave(&mut self) -> Option<Place>
        requires { self.old.running.catches ≡ [] }
        ensures { Led (goes_on self.old.waiting) self.old result self.new }
    {
        match self.waiting.pop() {
            None => None,
            Some(Waiting { back, extent }) => {
                self.slots.shed(size(self.running.frame));
                self.running = extent;
                Some(back)
            }
        }
    }

    pub(crate) fn resume(&mut self) -> Result<Option<Place>, FrameError>
        ensures { Resumed (resumed self.old) self.old result self.new }
    {
        match self.running.frame {
            Some(_) => Err(FrameError::BadCode),
            None => Ok(self.leave()),
        }
    }

    pub(crate) fn allocate(&mut self, n: u32) -> Result<(), FrameError>
        ensures { Written (allocated n self.old) self.old result self.new }
    {
        if self.running.frame.is_some() {
            return Err(FrameError::BadCode);
        }
        if !self.has_room(n) {
            return Err(FrameError::Limit);
        }
        self.slots.push_copies(n as usize, Slot::Absent)?;
        self.running.frame = Some(n);
        Ok(())
    }

    pub(crate) fn deallocate(&mut self, n: u32) -> Result<(), FrameError>
        ensures { Judged (deallocated n self.old) self.old result self.new }
    {
        match self.running.frame {
            Some(size) if size == n && !self.has_own_catch() => {
                self.slots.shed(size as usize);
                self.running.frame = None;
                Ok(())
            }
            _ => Err(FrameError::BadCode),
        }
    }

    pub(crate) fn trim(&mut self, n: u32, rest: u32) -> Result<(), FrameError>
        ensures { Judged (trimmed n rest self.old) self.old result self.new }
    {
        match self.running.frame {
            Some(size) if size as usize == n as usize + rest as usize => {
                if any_marked(&self.slots, n as usize) {
                    return Err(FrameError::BadCode);
                }
                self.slots.shed(n as usize);
                self.running.frame = Some(rest);
                Ok(())
            }
            _ => Err(FrameError::BadCode),
        }
    }

    pub(crate) fn fill(&mut self, i: u32, v: Ref) -> Result<(), FrameError>
        ensures { Judged (filled i v self.old) self.old result self.new }
    {
        if !self.is_free(i) {
            return Err(FrameError::BadCode);
        }
        self.slots.set(i as usize, Slot::Holds(v));
        Ok(())
    }

    pub(crate) fn push_catch(&mut self, slot: u32, to: Place) -> Result<(), FrameError>
        ensures { Written (caught slot to self.old) self.old result self.new }
    {
        if !self.is_free(slot) {
            return Err(FrameError::BadCode);
        }
        let height = self.slots.len() - slot as usize;
        self.marks.push(Mark { height, to })?;
        self.slots.set(slot as usize, Slot::Marked);
        Ok(())
    }

    // The slot of the newest catch of the call that runs, if there is one.
    fn newest_slot(&self) -> Option<usize>
        ensures { result ≡ newest_slot self.now.running.catches }
    {
        if !self.has_own_catch() {
            return None;
        }
        match self.marks.get(0) {
            Some(mark) => Some(self.slots.len().saturating_sub(mark.height)),
            None => None,
        }
    }

    // Takes the newest catch of the call that runs off, and makes its slot absent.
    fn take_catch(&mut self) -> Option<Place>
        ensures { Led (taken self.old) self.old result self.new }
    {
        let slot = self.newest_slot()?;
        let mark = self.marks.pop()?;
        self.slots.set(slot, Slot::Absent);
        Some(mark.to)
    }

    pub(crate) fn end_catch(&mut self, slot: u32) -> Result<(), FrameError>
        ensures { Judged (ended slot self.old) self.old result self.new }
    {
        match self.newest_slot() {
            Some(newest) if newest == slot as usize => {
                let _to = self.take_catch();
                Ok(())
            }
            _ => Err(FrameError::BadCode),
        }
    }

    pub(crate) fn raise(&mut self) -> Option<Place>
        ensures { Led (unwound self.old.running self.old.waiting) self.old result self.new }
    {
        if !self.has_catch() {
            return None;
        }
        while !self.has_own_catch() {
            self.leave()?;
        }
        self.take_catch()
    }
}
