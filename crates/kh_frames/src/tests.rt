// What each call answers, in tables, and how long many calls take. Run them too with an allocation refused.
use crate::FrameError::{BadCode, Limit};
use crate::{FrameError, Frames, Place, registers_are_maps, rules_are_blind};
use kh_heap::{Heap, Ref};
use kh_instr::Reg;
use kh_term::Class;
use std::alloc::Global;
use std::process::Abort;
use std::test::Fail;

const X0: Reg = Reg::X(0);

const X1: Reg = Reg::X(1);

const Y0: Reg = Reg::Y(0);

const Y1: Reg = Reg::Y(1);

const Y2: Reg = Reg::Y(2);

#[derive(Clone, Copy, Debug, PartialEq, Eq)]
enum Value {
    A,
    B,
}

#[derive(Clone, Copy)]
enum Call {
    Get(Reg),
    Set(Reg, Value),
    Suspend(u32),
    Resume,
    NoFrame,
    Allocate(u32),
    Deallocate(u32),
    Trim(u32, u32),
    PushCatch(u32, u32),
    EndCatch(u32),
    Raise(Class, Value),
    Pending,
    EndPending,
}

use Call::*;

#[derive(Clone, Copy, Debug, PartialEq, Eq)]
enum Answer {
    Done,
    Holds(Value),
    At(u32),
    Nothing,
    Caught(Class, Value),
}

use Answer::*;
use Value::{A, B};

type Row = (Call, Result<Answer, FrameError>);

// The references that stand for the values.
#[derive(Clone, Copy)]
struct Values {
    a: Ref,
    b: Ref,
}

impl Values {
    fn of(&self, value: Value) -> Ref {
        match value {
            A => self.a,
            B => self.b,
        }
    }

    fn which(&self, v: Ref) -> Value {
        if v == self.a { A } else { B }
    }
}

fn at(n: u32) -> Place {
    Place {
        function: n,
        index: n / 2,
    }
}

fn led(place: Option<Place>) -> Answer {
    match place {
        Some(place) if place == at(place.function) => At(place.function),
        _ => Nothing,
    }
}

fn caught(values: &Values, pending: Option<(Class, Ref)>) -> Answer {
    match pending {
        Some((class, reason)) => Caught(class, values.which(reason)),
        None => Nothing,
    }
}

fn done(done: Result<(), FrameError>) -> Result<Answer, FrameError> {
    done?;
    Ok(Done)
}

fn held(values: &Values, read: Result<Ref, FrameError>) -> Result<Answer, FrameError> {
    Ok(Holds(values.which(read?)))
}

fn resumed(place: Result<Option<Place>, FrameError>) -> Result<Answer, FrameError> {
    Ok(led(place?))
}

fn ended(frames: &mut Frames) -> Answer {
    frames.end_pending();
    Done
}

fn answer_once(frames: &mut Frames, values: &Values, call: Call) -> Result<Answer, FrameError> {
    match call {
        Get(r) => held(values, frames.get(r)),
        Set(r, v) => done(frames.set(r, values.of(v))),
        Suspend(back) => done(frames.suspend(at(back))),
        Resume => resumed(frames.resume()),
        NoFrame => done(frames.no_frame()),
        Allocate(n) => done(frames.allocate(n)),
        Deallocate(n) => done(frames.deallocate(n)),
        Trim(n, rest) => done(frames.trim(n, rest)),
        PushCatch(slot, to) => done(frames.push_catch(slot, at(to))),
        EndCatch(slot) => done(frames.end_catch(slot)),
        Raise(class, v) => Ok(led(frames.raise(class, values.of(v)))),
        Pending => Ok(caught(values, frames.pending())),
        EndPending => Ok(ended(frames)),
    }
}

// What a call answers, a second time where memory was refused.
fn answer_to(frames: &mut Frames, values: &Values, call: Call) -> Result<Answer, FrameError> {
    match answer_once(frames, values, call) {
        Err(FrameError::NoMemory) => answer_once(frames, values, call),
        answer => answer,
    }
}

fn two_values(alloc: Global) -> Result<Values, Fail> {
    let mut heap = Heap::new(alloc);
    let a = heap.int(1)?;
    let b = heap.int(2)?;
    Ok(Values { a, b })
}

fn passes(rt: &impl Abort, alloc: Global, rows: &[Row]) -> Result<(), Fail> {
    let values = two_values(alloc)?;
    let mut frames = Frames::new(alloc)?;
    for (i, (call, answer)) in rows.iter().enumerate() {
        assert_eq!(rt; answer_to(&mut frames, &values, *call), *answer, "row {i}");
    }
    Ok(())
}

const NO_SLOTS: [Row; 17] = [
    (NoFrame, Ok(Done)),
    (Deallocate(0), Err(BadCode)),
    (Trim(0, 0), Err(BadCode)),
    (Allocate(0), Ok(Done)),
    (NoFrame, Err(BadCode)),
    (Allocate(0), Err(BadCode)),
    (Get(Y0), Err(BadCode)),
    (Set(Y0, A), Err(BadCode)),
    (PushCatch(0, 1), Err(BadCode)),
    (Resume, Err(BadCode)),
    (Trim(0, 0), Ok(Done)),
    (Trim(0, 1), Err(BadCode)),
    (Deallocate(1), Err(BadCode)),
    (Deallocate(0), Ok(Done)),
    (NoFrame, Ok(Done)),
    (Resume, Ok(Nothing)),
    (Raise(Class::Error, A), Ok(Nothing)),
];

#[test]
fn a_frame_of_no_slots_is_a_frame(rt: HostRuntime) -> Result<(), Fail> {
    passes(&rt, rt.alloc(), &NO_SLOTS)
}

const LIMITS: [Row; 22] = [
    (Allocate(100_001), Err(Limit)),
    (Allocate(u32::MAX), Err(Limit)),
    (Allocate(100_000), Ok(Done)),
    (Suspend(1), Err(Limit)),
    (Trim(1, 99_999), Ok(Done)),
    (Suspend(1), Ok(Done)),
    (Suspend(2), Err(Limit)),
    (Allocate(1), Err(Limit)),
    (Allocate(0), Ok(Done)),
    (Deallocate(0), Ok(Done)),
    (Resume, Ok(At(1))),
    (Deallocate(99_999), Ok(Done)),
    (Allocate(1), Ok(Done)),
    (PushCatch(0, 7), Ok(Done)),
    (Suspend(8), Ok(Done)),
    (Allocate(99_999), Err(Limit)),
    (Allocate(99_998), Ok(Done)),
    (Suspend(9), Err(Limit)),
    (Raise(Class::Error, A), Ok(At(7))),
    (Suspend(8), Ok(Done)),
    (Allocate(99_998), Ok(Done)),
    (Deallocate(99_998), Ok(Done)),
];

#[test]
fn room_is_taken_and_given_back(rt: HostRuntime) -> Result<(), Fail> {
    passes(&rt, rt.alloc(), &LIMITS)
}

const SLOTS: [Row; 27] = [
    (Get(Y0), Err(BadCode)),
    (Set(Y0, A), Err(BadCode)),
    (Allocate(2), Ok(Done)),
    (Get(Y0), Err(BadCode)),
    (Set(Y0, A), Ok(Done)),
    (Get(Y0), Ok(Holds(A))),
    (Get(Y1), Err(BadCode)),
    (Get(Y2), Err(BadCode)),
    (Set(Y2, A), Err(BadCode)),
    (PushCatch(1, 3), Ok(Done)),
    (Get(Y1), Err(BadCode)),
    (Set(Y1, B), Err(BadCode)),
    (PushCatch(1, 4), Err(BadCode)),
    (PushCatch(2, 4), Err(BadCode)),
    (EndCatch(1), Ok(Done)),
    (Get(Y1), Err(BadCode)),
    (Set(Y1, B), Ok(Done)),
    (Get(Y1), Ok(Holds(B))),
    (Get(Y0), Ok(Holds(A))),
    (PushCatch(0, 5), Ok(Done)),
    (EndCatch(0), Ok(Done)),
    (Get(Y0), Err(BadCode)),
    (Get(Y1), Ok(Holds(B))),
    (Deallocate(2), Ok(Done)),
    (Allocate(2), Ok(Done)),
    (Get(Y1), Err(BadCode)),
    (Get(Reg::X(u32::MAX)), Err(BadCode)),
];

#[test]
fn slots_are_read_and_written(rt: HostRuntime) -> Result<(), Fail> {
    passes(&rt, rt.alloc(), &SLOTS)
}

const TRIMMED: [Row; 20] = [
    (Trim(u32::MAX, u32::MAX), Err(BadCode)),
    (Allocate(3), Ok(Done)),
    (Set(Y1, A), Ok(Done)),
    (PushCatch(2, 5), Ok(Done)),
    (Deallocate(3), Err(BadCode)),
    (Trim(3, 0), Err(BadCode)),
    (Trim(1, 1), Err(BadCode)),
    (Trim(u32::MAX, u32::MAX), Err(BadCode)),
    (Trim(1, 2), Ok(Done)),
    (Get(Y0), Ok(Holds(A))),
    (EndCatch(2), Err(BadCode)),
    (Deallocate(2), Err(BadCode)),
    (Raise(Class::Exit, B), Ok(At(5))),
    (Get(Y1), Err(BadCode)),
    (Set(Y1, B), Ok(Done)),
    (EndCatch(1), Err(BadCode)),
    (Trim(1, 1), Ok(Done)),
    (Get(Y0), Ok(Holds(B))),
    (Deallocate(2), Err(BadCode)),
    (Deallocate(1), Ok(Done)),
];

#[test]
fn a_catch_moves_with_its_slot(rt: HostRuntime) -> Result<(), Fail> {
    passes(&rt, rt.alloc(), &TRIMMED)
}

const CATCHES: [Row; 23] = [
    (Set(X0, A), Ok(Done)),
    (Allocate(2), Ok(Done)),
    (PushCatch(0, 1), Ok(Done)),
    (PushCatch(1, 2), Ok(Done)),
    (EndCatch(0), Err(BadCode)),
    (EndCatch(1), Ok(Done)),
    (EndCatch(1), Err(BadCode)),
    (EndCatch(0), Ok(Done)),
    (PushCatch(1, 3), Ok(Done)),
    (Suspend(4), Ok(Done)),
    (EndCatch(1), Err(BadCode)),
    (Allocate(1), Ok(Done)),
    (Set(Y0, A), Ok(Done)),
    (Set(X1, B), Ok(Done)),
    (Raise(Class::Throw, B), Ok(At(3))),
    (Pending, Ok(Caught(Class::Throw, B))),
    (Get(Y0), Err(BadCode)),
    (Get(Y1), Err(BadCode)),
    (EndCatch(1), Err(BadCode)),
    (Deallocate(2), Ok(Done)),
    (Resume, Ok(Nothing)),
    (Get(X0), Ok(Holds(A))),
    (Get(X1), Ok(Holds(B))),
];

#[test]
fn catches_end_and_catch(rt: HostRuntime) -> Result<(), Fail> {
    passes(&rt, rt.alloc(), &CATCHES)
}

const DEEP: [Row; 24] = [
    (Set(X1, A), Ok(Done)),
    (Get(X0), Err(BadCode)),
    (Allocate(1), Ok(Done)),
    (PushCatch(0, 1), Ok(Done)),
    (Suspend(2), Ok(Done)),
    (Allocate(2), Ok(Done)),
    (Suspend(3), Ok(Done)),
    (Allocate(3), Ok(Done)),
    (Pending, Ok(Nothing)),
    (Raise(Class::Error, A), Ok(At(1))),
    (Raise(Class::Exit, B), Ok(Nothing)),
    (Pending, Ok(Caught(Class::Error, A))),
    (PushCatch(0, 4), Ok(Done)),
    (Raise(Class::Exit, B), Ok(At(4))),
    (Pending, Ok(Caught(Class::Exit, B))),
    (EndPending, Ok(Done)),
    (Pending, Ok(Nothing)),
    (Raise(Class::Throw, B), Ok(Nothing)),
    (Pending, Ok(Nothing)),
    (Resume, Err(BadCode)),
    (Deallocate(1), Ok(Done)),
    (Resume, Ok(Nothing)),
    (Get(X0), Err(BadCode)),
    (Get(X1), Ok(Holds(A))),
];

#[test]
fn a_raise_goes_down_three_calls(rt: HostRuntime) -> Result<(), Fail> {
    passes(&rt, rt.alloc(), &DEEP)
}

// A function that catches what its call of another may raise: at first nothing is raised, and then an error.
const SAFE: [Row; 22] = [
    (Set(X0, A), Ok(Done)),
    (Suspend(9), Ok(Done)),
    (Allocate(1), Ok(Done)),
    (PushCatch(0, 7), Ok(Done)),
    (Set(X1, A), Ok(Done)),
    (Set(X0, B), Ok(Done)),
    (EndCatch(0), Ok(Done)),
    (Deallocate(1), Ok(Done)),
    (Resume, Ok(At(9))),
    (Get(X0), Ok(Holds(B))),
    (Suspend(9), Ok(Done)),
    (Allocate(1), Ok(Done)),
    (PushCatch(0, 7), Ok(Done)),
    (Raise(Class::Error, A), Ok(At(7))),
    (Get(Y0), Err(BadCode)),
    (Pending, Ok(Caught(Class::Error, A))),
    (Set(X0, A), Ok(Done)),
    (EndPending, Ok(Done)),
    (Deallocate(1), Ok(Done)),
    (Resume, Ok(At(9))),
    (Get(X0), Ok(Holds(A))),
    (Pending, Ok(Nothing)),
];

#[test]
fn a_safe_function_ends_its_catch_or_is_led_to_it(rt: HostRuntime) -> Result<(), Fail> {
    passes(&rt, rt.alloc(), &SAFE)
}

#[test]
fn a_hundred_thousand_calls_wait(rt: HostRuntime) -> Result<(), Fail> {
    let mut frames = Frames::new(rt.alloc())?;
    for n in 0..100_000 {
        frames.suspend(at(n))?;
    }
    assert_eq!(rt; frames.suspend(at(0)), Err(Limit));
    assert_eq!(rt; frames.allocate(1), Err(Limit));
    for n in (0..100_000).rev() {
        assert_eq!(rt; frames.resume()?, Some(at(n)));
    }
    assert_eq!(rt; frames.resume()?, None);
    Ok(())
}

fn round(rt: &impl Abort, frames: &mut Frames, v: Ref) -> Result<(), FrameError> {
    frames.suspend(at(3))?;
    frames.allocate(2)?;
    frames.set(Y1, v)?;
    assert_eq!(rt; frames.get(Y1)?, v);
    frames.deallocate(2)?;
    assert_eq!(rt; frames.resume()?, Some(at(3)));
    Ok(())
}

#[test]
fn ten_million_calls_come_and_go(rt: HostRuntime) -> Result<(), Fail> {
    let values = two_values(rt.alloc())?;
    let mut frames = Frames::new(rt.alloc())?;
    for _ in 0..10_000_000 {
        round(&rt, &mut frames, values.a)?;
    }
    Ok(())
}

#[test]
fn slots_go_one_by_one_before_many_marks(rt: HostRuntime) -> Result<(), Fail> {
    let mut frames = Frames::new(rt.alloc())?;
    frames.allocate(99_999)?;
    for slot in 50_000..99_999 {
        frames.push_catch(slot, at(slot))?;
    }
    for rest in (49_999..99_999).rev() {
        frames.trim(1, rest)?;
    }
    assert_eq!(rt; frames.trim(1, 49_998), Err(BadCode));
    for slot in (0..49_999).rev() {
        frames.end_catch(slot)?;
    }
    frames.deallocate(49_999)?;
    Ok(())
}

// The laws speak of every type: they are called at these.
#[test]
fn laws_are_called() {
    registers_are_maps::<u8>();
    rules_are_blind::<u8, Ref, u32, Place>();
}
