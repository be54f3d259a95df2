//! The line that says where the files are damaged.
ghost use Rattle.std.specs.Prelude.{◌≡◌, ◌⊎◌, IfOk};
ghost use Rattle.kh_io.specs.Told.{Extends, IsFrontOf};
ghost use Rattle.kh_io.specs.Frames.{FilesStay, InputStays, Cause, During, Untouched};
ghost use Rattle.khepri.specs.Run.{damage_tree, damage_line};

use crate::output::give_all;
use crate::session::Stop;
use kh_io::Host;
use kh_print::print_line;
use kh_term::{NoMemory, Term, int, triple, word};
use std::alloc::Global;

/// Gives the line of a damage, and returns why the run ends.
pub fn report<H: Host>(alloc: Global, host: &mut H, file: u8, offset: u64) -> Stop
    ensures line { Extends (H.view host.old).given (H.view host.new).given
        (λ more. IsFrontOf more (damage_line file offset)
        × (result ≡ Stop.Damaged → more ≡ damage_line file offset)) }
    ensures how { (result ≡ Stop.Damaged)
        ⊎ ((result ≡ Stop.WriteFault) ⊎ (result ≡ Stop.NoMemory)) }
    ensures cause { Cause (result ≡ Stop.WriteFault) (H.view host.old).faults.writes
        (H.view host.new).faults.writes }
    ensures files { FilesStay (H.view host.old) (H.view host.new) }
    ensures during { During (Untouched (H.view host.old) (H.view host.new)) (H.view host.old)
        (H.view host.new) }
    ensures input { InputStays (H.view host.old) (H.view host.new) }
{
    let Ok(damage) = damage_term(alloc, file, offset) else {
        return Stop::NoMemory;
    };
    let Ok(line) = print_line(alloc, &damage) else {
        return Stop::NoMemory;
    };
    match give_all(host, line.as_slice()) {
        Ok(()) => Stop::Damaged,
        Err(_) => Stop::WriteFault,
    }
}

// `{damaged,File,Offset}`
fn damage_term(alloc: Global, file: u8, offset: u64) -> Result<Term, NoMemory>
    ensures { IfOk result (λ term. term.node ≡ damage_tree file offset) }
{
    let damaged = word(alloc, "damaged")?;
    Ok(triple(alloc, damaged, int(file as i128), int(offset as i128))?)
}
