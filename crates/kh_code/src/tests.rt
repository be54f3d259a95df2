//! Modules by hand: how they are loaded and found, and what calls mean.
ghost use Rattle.std.specs.Prelude.{◌≡◌, [], ◌∷◌, IfOk};
ghost use Rattle.kh_instr.specs.Written.{IsWritten, HasSmallLiterals};
ghost use Rattle.kh_instr.specs.declared.instr.Instr.TheVariants as instr;

use crate::{Code, CodeError, Loaded, MOST_MODULES};
use kh_instr::{Export, Function, Functions, Instr, Meaning, Module};
use kh_term::{Atom, NoMemory, Origin};
use sqlite_items::Items;
use std::alloc::Global;
use std::process::Abort;
use std::test::Fail;

fn word(alloc: Global, text: &str) -> Result<Atom, NoMemory> {
    match Atom::new(Vec::from_slice(alloc, text.as_bytes())?) {
        Some(word) => Ok(word),
        None => Err(NoMemory),
    }
}

fn triple(alloc: Global, module: &str, name: &str, arity: u8) -> Result<Origin, NoMemory> {
    let module = word(alloc, module)?;
    let name = word(alloc, name)?;
    Ok(Origin {
        module,
        name,
        arity,
    })
}

// A function whose code is the label of its entry.
fn labelled(
    alloc: Global,
    module: &Atom,
    name: &Atom,
    arity: u8,
    entry: u32,
) -> Result<Function, NoMemory>
    ensures { IfOk result (λ f. f ≡ record {
      name = name.now;
      arity = arity;
      entry = entry;
      origin = record { «module» = «module».now; name = name.now; arity = arity };
      code = instr.Label entry ∷ [];
    }) }
{
    let origin = Origin {
        module: module.copy(alloc)?,
        name: name.copy(alloc)?,
        arity,
    };
    let mut code = Items::new(alloc);
    code.push(Instr::Label(entry))?;
    Ok(Function {
        name: name.copy(alloc)?,
        arity,
        entry,
        origin,
        code,
    })
}

// A module with a function of 0 and one of 2 arguments, of which it exports the second, and one that isn't there.
fn module(alloc: Global, module: &str, name: &str) -> Result<Module, NoMemory>
    ensures written { IfOk result IsWritten }
    ensures small { IfOk result HasSmallLiterals }
{
    let module = word(alloc, module)?;
    let name = word(alloc, name)?;
    let mut functions = Items::new(alloc);
    functions.push(labelled(alloc, &module, &name, 0, 1)?)?;
    functions.push(labelled(alloc, &module, &name, 2, 7)?)?;
    let functions = Functions::new(alloc, functions)?;
    let mut exports = Items::new(alloc);
    exports.push(Export {
        name: name.copy(alloc)?,
        arity: 2,
    })?;
    exports.push(Export {
        name: name.copy(alloc)?,
        arity: 3,
    })?;
    Ok(Module {
        name: module,
        exports,
        functions,
    })
}

// Where a function begins that is found.
fn entry_of(function: Option<&Function>) -> u32 {
    match function {
        Some(function) => function.entry,
        None => 0,
    }
}

#[test]
fn functions_are_found(rt: HostRuntime) -> Result<(), Fail> {
    let alloc = rt.alloc();
    let mut code = Code::new(alloc)?;
    assert_eq!(rt; code.load(module(alloc, "m", "f")?), Ok(Loaded::New));
    assert_eq!(rt; code.load(module(alloc, "n", "f")?), Ok(Loaded::New));
    assert_eq!(rt; code.load(module(alloc, "m", "g")?), Ok(Loaded::Replaced));
    for (name, function, arity, entry, exported) in [
        ("m", "g", 0, 1, false),
        ("m", "g", 2, 7, true),
        ("m", "g", 3, 0, false),
        ("m", "f", 2, 0, false),
        ("n", "f", 2, 7, true),
        ("o", "f", 2, 0, false),
    ] {
        let triple = triple(alloc, name, function, arity)?;
        assert_eq!(rt;
            entry_of(code.find(&triple)),
            entry,
            "{name} {function} {arity}"
        );
        assert_eq!(rt;
            code.exported(&triple),
            exported,
            "{name} {function} {arity}"
        );
    }
    let name = word(alloc, "n")?;
    for (label, entry) in [(1, 1), (7, 7), (2, 0)] {
        assert_eq!(rt; entry_of(code.entered(&name, label)), entry, "{label}");
    }
    Ok(())
}

// What a call of a function of two arguments means where a loaded module has it.
fn meaning(alloc: Global, name: &str, function: &str) -> Result<u8, Fail> {
    let mut code = Code::new(alloc)?;
    code.load(module(alloc, name, function)?)
        .map_err(|_| NoMemory)?;
    match code.meaning(&triple(alloc, name, function, 2)?) {
        Meaning::Builtin(_) => Ok(b'b'),
        Meaning::Service(_) => Ok(b's'),
        Meaning::Function => Ok(b'f'),
        Meaning::Nothing => Ok(b'n'),
    }
}

#[test]
fn a_name_decides_what_a_call_means(rt: HostRuntime) -> Result<(), Fail> {
    for (name, function, wanted) in [
        ("erlang", "+", b'b'),
        ("erlang", "put", b'n'),
        ("khepri_tx", "put", b's'),
        ("khepri_tx", "+", b'n'),
        ("maps", "get", b'b'),
        ("maps", "put", b'f'),
        ("lists", "member", b'b'),
        ("lists", "f", b'f'),
        ("m", "put", b'f'),
    ] {
        let found = meaning(rt.alloc(), name, function)?;
        assert_eq!(rt; found, wanted, "{name} {function}");
    }
    Ok(())
}

#[test]
fn there_are_at_most_1024_modules(rt: HostRuntime) -> Result<(), Fail> {
    let alloc = rt.alloc();
    let mut code = Code::new(alloc)?;
    for at in 0..MOST_MODULES {
        let name = format!(in alloc; "m{at}")?;
        let loaded = code.load(module(alloc, name.as_str(), "f")?);
        assert_eq!(rt; loaded, Ok(Loaded::New), "{at}");
    }
    assert_eq!(rt;
        code.load(module(alloc, "m", "f")?),
        Err(CodeError::TooMuchCode)
    );
    assert_eq!(rt; code.load(module(alloc, "m7", "f")?), Ok(Loaded::Replaced));
    let missing = triple(alloc, "m", "f", 2)?;
    assert!(rt; code.find(&missing).is_none());
    Ok(())
}
