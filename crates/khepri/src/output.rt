//! Replies on their way out.
ghost use Rattle.std.specs.Prelude.{OnOk, OnErr, IsErr};
ghost use Rattle.kh_io.specs.Told.{Extends, IsFrontOf};
ghost use Rattle.kh_io.specs.Frames.{FilesStay, InputStays, Cause, During, Untouched};
ghost use Rattle.khepri.specs.Output.{GivesAll};

use kh_io::{Failed, Host};

/// Gives a piece whole, in as many calls as the sink wants.
pub fn give_all<H: Host>(host: &mut H, piece: &[u8]) -> Result<(), Failed>
    ensures given { OnOk result (GivesAll (H.view host.old).given
        (H.view host.new).given piece.now) }
    ensures front { OnErr result (Extends (H.view host.old).given (H.view host.new).given
        (λ more. IsFrontOf more piece.now)) }
    ensures cause { Cause (IsErr result) (H.view host.old).faults.writes
        (H.view host.new).faults.writes }
    ensures files { FilesStay (H.view host.old) (H.view host.new) }
    ensures during { During (Untouched (H.view host.old) (H.view host.new)) (H.view host.old)
        (H.view host.new) }
    ensures input { InputStays (H.view host.old) (H.view host.new) }
{
    let mut rest = piece;
    while !rest.is_empty() {
        let taken = host.give(rest)?;
        let (_, after) = rest.split_at(taken);
        rest = after;
    }
    Ok(())
}
