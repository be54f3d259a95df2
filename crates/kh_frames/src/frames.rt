// The frames of running code: registers, calls and the pending exception.
ghost use Rattle.std.specs.Prelude.{◌≡◌};
ghost use Rattle.kh_frames.specs.Rules.{on_calls, fetched, stored, suspended, resumed_to, unframed, allocated, deallocated, trimmed, caught, ended, raised, settled, begun};
ghost use Rattle.kh_frames.specs.Valid.{IsValid};
ghost use Rattle.kh_frames.specs.Answers.{Written, WrittenAt, Judged, Fetched, Led, Resumed};

use crate::calls::CallStack;
use crate::error::FrameError;
use crate::registers::Registers;
use crate::state::{Place, Slot};
use kh_heap::Ref;
use kh_instr::Reg;
use kh_term::{Class, NoMemory};
use std::alloc::Global;
use std::marker::Model;

/// The registers, the frames of all calls, their catches and the pending exception.
#[derive(Drop)]
pub struct Frames {
    registers: Registers,
    calls: CallStack,
    pending: Option<(Class, Ref)>,
}

impl Model for Frames {
    ghost use Rattle.kh_frames.specs.State.{State};
    ghost use Rattle.kh_heap.specs.declared.reference.Ref.{Ref};
    ghost use Rattle.kh_frames.specs.declared.state.Place.{Place};

    ghost Value = { State Ref Place };

    ghost view = { λ f. record { registers = f.registers; calls = f.calls; pending = f.pending } };
}

impl Frames {
    /// Every register absent, no frame, nothing suspended, no catch, and nothing pending. Takes no memory yet.
    pub fn new(alloc: Global) -> Result<Frames, NoMemory>
        ensures { result ≡ Ok begun }
    {
        Ok(Frames {
            registers: Registers::new(alloc),
            calls: CallStack::new(alloc),
            pending: None,
        })
    }

    /// What holds of every state: the marks of a call's frame are exactly the slots of its catches, each once, and the
    /// slots of all frames and the waiting calls are at most 100,000. The call does nothing.
    pub fn check(&self)
        ensures { IsValid self.now }
    {
        self.registers.check();
        self.calls.check();
    }

    /// The value of a register. `BadCode` where an x register was never written, and where a y register is no slot of
    /// the frame or holds no value.
    pub fn get(&self, r: Reg) -> Result<Ref, FrameError>
        ensures { Fetched (fetched r self.now) result }
    {
        let value = match r {
            Reg::X(n) => self.registers.get(n),
            Reg::Y(n) => match self.calls.slot(n) {
                Some(Slot::Holds(v)) => Some(v),
                Some(Slot::Absent) | Some(Slot::Marked) | None => None,
            },
        };
        value.ok_or(FrameError::BadCode)
    }

    /// Writes a register. `BadCode` where a y register is no slot of the frame or is marked. Writing a y register takes
    /// no memory.
    pub fn set(&mut self, r: Reg, v: Ref) -> Result<(), FrameError>
        ensures { WrittenAt r (stored r v self.old) self.old result self.new }
    {
        match r {
            Reg::X(n) => {
                self.registers.set(n, v)?;
                Ok(())
            }
            Reg::Y(n) => self.calls.fill(n, v),
        }
    }

    /// Has the call that runs wait, to go on at `back`, and begins one without a frame. `Limit` past 100,000 slots and
    /// waiting calls.
    pub fn suspend(&mut self, back: Place) -> Result<(), FrameError>
        ensures { Written (on_calls (suspended back) self.old) self.old result self.new }
    {
        self.calls.suspend(back)
    }

    /// Ends the call that runs, which has no frame, and answers the place at which the newest waiting one goes on;
    /// `None` where none waits, and then nothing changes. `BadCode` where there is a frame.
    pub fn resume(&mut self) -> Result<Option<Place>, FrameError>
        ensures { Resumed (resumed_to self.old) self.old result self.new }
    {
        self.calls.resume()
    }

    /// `BadCode` where there is a frame.
    pub fn no_frame(&self) -> Result<(), FrameError>
        ensures { Judged (on_calls unframed self.now) self.now result self.now }
    {
        self.calls.no_frame()
    }

    /// Makes a frame of `n` absent slots. `BadCode` where there is one; then `Limit` past 100,000 slots and waiting
    /// calls.
    pub fn allocate(&mut self, n: u32) -> Result<(), FrameError>
        ensures { Written (on_calls (allocated n) self.old) self.old result self.new }
    {
        self.calls.allocate(n)
    }

    /// Drops the frame. `BadCode` unless it has exactly `n` slots and the call has no catch.
    pub fn deallocate(&mut self, n: u32) -> Result<(), FrameError>
        ensures { Judged (on_calls (deallocated n) self.old) self.old result self.new }
    {
        self.calls.deallocate(n)
    }

    /// Drops the first `n` slots of the frame; the catches of this call name slots lower by `n` then. `BadCode` unless
    /// it has exactly `n + rest` slots and none of the first `n` is marked.
    pub fn trim(&mut self, n: u32, rest: u32) -> Result<(), FrameError>
        ensures { Judged (on_calls (trimmed n rest) self.old) self.old result self.new }
    {
        self.calls.trim(n, rest)
    }

    /// Pushes a catch that leads to `to`, and marks its slot. `BadCode` where the frame has no such slot or it is marked.
    pub fn push_catch(&mut self, slot: u32, to: Place) -> Result<(), FrameError>
        ensures { Written (on_calls (caught slot to) self.old) self.old result self.new }
    {
        self.calls.push_catch(slot, to)
    }

    /// Takes the newest catch off, and makes its slot absent. `BadCode` unless it is this call's with that slot.
    pub fn end_catch(&mut self, slot: u32) -> Result<(), FrameError>
        ensures { Judged (on_calls (ended slot) self.old) self.old result self.new }
    {
        self.calls.end_catch(slot)
    }

    /// Takes the newest catch of all calls: the calls newer than its own are gone, its slot is absent, and the exception
    /// is pending. Answers the place that it leads to; `None` where there is no catch, and then nothing changes.
    pub fn raise(&mut self, class: Class, reason: Ref) -> Option<Place>
        ensures { Led (raised class reason self.old) self.old result self.new }
    {
        let place = self.calls.raise()?;
        self.pending = Some((class, reason));
        Some(place)
    }

    /// The pending exception, if there is one.
    pub fn pending(&self) -> Option<(Class, Ref)>
        ensures { result ≡ self.now.pending }
    {
        self.pending
    }

    /// Has no exception pending.
    pub fn end_pending(&mut self)
        ensures { self.new ≡ settled self.old }
    {
        self.pending = None;
    }
}
