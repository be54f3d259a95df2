//! The forms of a script are read and answered, one after another.
ghost use Rattle.std.specs.Prelude.{◌≡◌, ◌≢◌, ◌⊎◌, ◌≤◌, IsTrue, length, drop, Err, OnOk, OnErr, IfOk, IfErr};
ghost use Rattle.kh_io.specs.Told.{Kept, Extends, IsFrontOf};
ghost use Rattle.kh_io.specs.Frames.{Causes, During, TakesNothing};
ghost use Rattle.kh_text_defs.specs.Shown.{shown_line};
ghost use Rattle.kh_store.specs.Command.{is_command};
ghost use Rattle.kh_store.specs.State.{store_logs, store_reply, store_after};
ghost use Rattle.kh_store.specs.Store.{state_of, Stands};
ghost use Rattle.khepri.specs.Session.{RecoversAt, RecoversBy};
ghost use Rattle.khepri.specs.Serving.{Answers, AnswerStops, ServesTo, ServeStops};

use crate::line::{Line, read_line};
use crate::output::give_all;
use kh_io::Host;
use kh_print::print_line;
use kh_read::Form;
use kh_store::{Store, StoreError};
use std::alloc::Global;

/// Why a session ended before the end of its input.
#[derive(Clone, Copy, Debug, PartialEq, Eq)]
pub enum Stop {
    /// No form stands at some place.
    Syntax,
    /// The files are damaged.
    Damaged,
    ReadFault,
    WriteFault,
    DiskFault,
    /// The script is longer than is read.
    TooLong,
    NoMemory,
}

/// Executes a form, and gives its reply.
pub fn answer<H: Host>(
    alloc: Global,
    host: &mut H,
    store: &mut Store,
    form: Form,
) -> Result<(), Stop>
    requires stands { Stands store.old (H.view host.old) }
    requires command { IsTrue (is_command form) }
    ensures answered { OnOk result (Answers form (state_of store.old) (state_of store.new)
        (H.view host.old) (H.view host.new)) }
    ensures front { OnErr result (Extends (H.view host.old).given (H.view host.new).given
        (λ more. IsFrontOf more (shown_line (store_reply form (state_of store.old))))) }
    ensures stands { result ≢ Err Stop.DiskFault → Stands store.new (H.view host.new) }
    ensures in_doubt { result ≡ Err Stop.DiskFault
        → Kept (H.view host.old).given (H.view host.new).given
        × IsTrue (store_logs form (state_of store.old)) }
    ensures during { During (λ files s. RecoversAt (state_of store.old) (H.view host.old) files s
        ⊎ RecoversBy (store_after form (state_of store.old)) (H.view host.new) files s)
        (H.view host.old) (H.view host.new) }
    ensures stops { IfErr result AnswerStops }
    ensures causes { Causes (result ≡ Err Stop.ReadFault) (result ≡ Err Stop.WriteFault)
        (result ≡ Err Stop.DiskFault) (H.view host.old) (H.view host.new) }
    ensures untaken { TakesNothing (H.view host.old) (H.view host.new) }
{
    let reply = match store.execute(host, form) {
        Ok(reply) => reply,
        Err(StoreError::DiskFault) => return Err(Stop::DiskFault),
        Err(StoreError::NoMemory) => return Err(Stop::NoMemory),
        // It stands, so the disk hasn't failed before.
        Err(StoreError::Failed) => unreachable!(),
    };
    let Ok(line) = print_line(alloc, &reply) else {
        return Err(Stop::NoMemory);
    };
    match give_all(host, line.as_slice()) {
        Ok(()) => Ok(()),
        Err(_) => Err(Stop::WriteFault),
    }
}

/// Answers the lines from a place on, as far as they are whole, and returns the place behind them.
/// `is_end` says that the input ends behind these bytes.
pub fn serve<H: Host>(
    alloc: Global,
    host: &mut H,
    store: &mut Store,
    input: &[u8],
    at: usize,
    is_end: bool,
) -> Result<usize, Stop>
    requires within { at ≤ length input.now }
    requires stands { Stands store.old (H.view host.old) }
    ensures within { IfOk result (λ next. next ≤ length input.now) }
    ensures served { IfOk result (λ next. ServesTo
        (record {
          lines = record { is_end = is_end; bytes = drop at input.now };
          left = drop next input.now;
          old = state_of store.old;
          new = state_of store.new;
        })
        (H.view host.old) (H.view host.new)) }
    ensures stands { result ≢ Err Stop.DiskFault → Stands store.new (H.view host.new) }
    ensures stops { IfErr result (λ stop. ServeStops stop
        (record { is_end = is_end; bytes = drop at input.now }) (state_of store.old)
        (H.view host.old) (H.view host.new)) }
    ensures causes { Causes (result ≡ Err Stop.ReadFault) (result ≡ Err Stop.WriteFault)
        (result ≡ Err Stop.DiskFault) (H.view host.old) (H.view host.new) }
    ensures untaken { TakesNothing (H.view host.old) (H.view host.new) }
{
    let mut place = at;
    'lines: loop {
        match read_line(alloc, input, place, is_end) {
            Ok(Line::Form(form, next)) => {
                if let Err(stop) = answer(alloc, host, store, form) {
                    return Err(stop);
                }
                place = next;
            }
            Ok(Line::End) => return Ok(place),
            Ok(Line::Fault) => return Err(Stop::Syntax),
            Ok(Line::Unfinished) => {
                return if is_end { Err(Stop::Syntax) } else { Ok(place) };
            }
            Err(_) => return Err(Stop::NoMemory),
        }
    }
}
