//! What an instruction names: labels, functions, literals.
ghost use Rattle.std.specs.Prelude.{◌≡◌, [], ◌∷◌, map, IfOk};
ghost use Rattle.std.specs.Option.{option_copied};
ghost use Rattle.kh_instr.specs.Syntax.{is_listed, is_any_label, labels, jump_unless_0, callee, near_label, far_function};

use crate::instr::Instr;
use kh_term::{NoMemory, Origin};
use std::alloc::Global;

/// Whether the table lists an instruction: it isn't an unsupported one.
pub fn is_listed(instr: &Instr) -> bool
    ensures { result ≡ is_listed instr.now }
{
    match instr {
        Instr::Unsupported(_) => false,
        _ => true,
    }
}

/// Whether an instruction is a label.
pub fn is_any_label(instr: &Instr) -> bool
    ensures { result ≡ is_any_label instr.now }
{
    match instr {
        Instr::Label(_) => true,
        _ => false,
    }
}

/// The labels to which an instruction may jump, in order; the 0 that says that a failure raises is none. The error is want
/// of memory.
pub fn labels(alloc: Global, instr: &Instr) -> Result<Vec<u32>, NoMemory>
    ensures { IfOk result (λ found. found.items ≡ labels instr.now) }
{
    match instr {
        Instr::Test(label, _)
        | Instr::Jump(label)
        | Instr::GetMapElements(label, _, _)
        | Instr::Try(_, label)
        | Instr::Catch(_, label) => one_label(alloc, *label),
        Instr::SelectVal(_, label, cases) => case_labels(alloc, *label, cases.as_slice()),
        Instr::SelectTupleArity(_, label, sizes) => case_labels(alloc, *label, sizes.as_slice()),
        Instr::Bif(_, label, _, _)
        | Instr::GcBif(_, label, _, _, _)
        | Instr::PutMapAssoc(label, _, _, _, _)
        | Instr::PutMapExact(label, _, _, _, _) => jump_unless_0(alloc, *label),
        _ => Ok(Vec::new(alloc)),
    }
}

fn one_label(alloc: Global, label: u32) -> Result<Vec<u32>, NoMemory>
    ensures { IfOk result (λ found. found.items ≡ label ∷ []) }
{
    let mut found = Vec::new(alloc);
    found.push(label)?;
    Ok(found)
}

fn jump_unless_0(alloc: Global, label: u32) -> Result<Vec<u32>, NoMemory>
    ensures { IfOk result (λ found. found.items ≡ jump_unless_0 label) }
{
    match label {
        0 => Ok(Vec::new(alloc)),
        _ => one_label(alloc, label),
    }
}

// The label where no case is equal, and those of the cases.
fn case_labels<A>(alloc: Global, label: u32, cases: &[(A, u32)]) -> Result<Vec<u32>, NoMemory>
    ensures { IfOk result (λ found. found.items ≡ label ∷ map (λ c. c.1) cases.now) }
{
    let mut found = one_label(alloc, label)?;
    for case in cases {
        found.push(case.1)?;
    }
    Ok(found)
}

/// The label of the function that an instruction calls or makes a closure of, where it is near.
pub fn near_callee(instr: &Instr) -> Option<u32>
    ensures { result ≡ near_label (callee instr.now) }
{
    match instr {
        Instr::Call(_, label)
        | Instr::CallLast(_, label, _)
        | Instr::CallOnly(_, label)
        | Instr::MakeFun3(label, _, _) => Some(*label),
        _ => None,
    }
}

/// The function that an external call names.
pub fn far_callee(instr: &Instr) -> Option<&Origin>
    ensures { option_copied result ≡ far_function (callee instr.now) }
{
    match instr {
        Instr::CallExt(function) | Instr::CallExtLast(function, _) | Instr::CallExtOnly(function) =>
            Some(function),
        _ => None,
    }
}
