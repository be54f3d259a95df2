// The x registers: each written or absent, the last one written.
ghost use Rattle.std.specs.Prelude.{◌≡◌, ◌<◌, ◌^◌, OnOk, OnErr, [], true};
ghost use Rattle.kh_frames.specs.Frame.{register, grown, written};
ghost use Rattle.kh_frames.specs.Valid.{ends_written};

use kh_heap::Ref;
use kh_term::NoMemory;
use std::alloc::Global;
use std::marker::Model;

#[derive(Drop)]
pub(crate) struct Registers {
    items: Vec<Option<Ref>>,
}

impl Model for Registers {
    ghost use Rattle.std.specs.Prelude.{◌≡◌, List, true};
    ghost use Rattle.std.specs.declared.option.Option.{Option};
    ghost use Rattle.kh_heap.specs.declared.reference.Ref.{Ref};
    ghost use Rattle.kh_frames.specs.Valid.{ends_written};

    ghost Value = { List (Option Ref) };

    ghost view = { λ r. r.items.items };

    ghost invariant = { λ r. ends_written r.items.items ≡ true };
}

// Sees to it that there is a place n; those that are added are absent.
fn provide(items: &mut Vec<Option<Ref>>, n: usize) -> Result<(), NoMemory>
    requires { n < 2 ^ 32 }
    ensures provided { OnOk result (items.new.items ≡ grown items.old.items n) }
    ensures refused { OnErr result (items.new.items ≡ items.old.items) }
{
    if n >= items.len() {
        items.resize(n + 1, None)?;
    }
    Ok(())
}

impl Registers {
    pub(crate) fn new(alloc: Global) -> Registers
        ensures { result ≡ [] }
    {
        Registers {
            items: Vec::new(alloc),
        }
    }

    // The last register is written.
    pub(crate) fn check(&self)
        ensures { ends_written self.now ≡ true }
    {
        let _ = &self.items;
    }

    pub(crate) fn get(&self, n: u32) -> Option<Ref>
        ensures { result ≡ register self.now n }
    {
        match self.items.get(n as usize) {
            Some(item) => *item,
            None => None,
        }
    }

    pub(crate) fn set(&mut self, n: u32, v: Ref) -> Result<(), NoMemory>
        ensures written { OnOk result (self.new ≡ written self.old n v) }
        ensures refused { OnErr result (self.new ≡ self.old) }
    {
        let n = n as usize;
        provide(&mut self.items, n)?;
        self.items[n] = Some(v);
        Ok(())
    }
}
