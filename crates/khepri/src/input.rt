//! The input comes in pieces.
ghost use Rattle.std.specs.Prelude.{◌≡◌, ◌<◌, ◌≤◌, Err, length, IfOk, IfErr, OnErr};
ghost use Rattle.kh_io.specs.Frames.{FilesStay, SinkStays, Cause, During, OfView};
ghost use Rattle.khepri.specs.Input.{TakesMore, TakeStops};
ghost use Rattle.khepri.specs.Script.{script_limit};

use crate::session::Stop;
use kh_io::Host;

/// How many bytes of a script are read as text.
const SCRIPT_LIMIT: usize = 67_108_864;

/// What came of a further piece of the input.
#[derive(Clone, Copy, Debug, PartialEq, Eq)]
pub enum Piece {
    Some,
    /// The input has ended.
    None,
}

/// Takes a further piece of the input, and puts it at the end of what came before.
/// A byte past the limit isn't kept.
pub fn take_more<H: Host>(
    host: &mut H,
    input: &mut Vec<u8>,
    buffer: &mut [u8],
) -> Result<Piece, Stop>
    requires some { 0 < length buffer.old }
    requires short { length input.old.items ≤ script_limit }
    ensures taken { IfOk result (λ piece. TakesMore piece (H.view host.old)
        (H.view host.new) input.old.items input.new.items) }
    ensures stops { IfErr result (λ stop. TakeStops stop (H.view host.old)
        (H.view host.new) input.old.items) }
    ensures kept { OnErr result (input.new.items ≡ input.old.items) }
    ensures cause { Cause (result ≡ Err Stop.ReadFault) (H.view host.old).faults.reads
        (H.view host.new).faults.reads }
    ensures files { FilesStay (H.view host.old) (H.view host.new) }
    ensures during { During (OfView (H.view host.old)) (H.view host.old) (H.view host.new) }
    ensures sink { SinkStays (H.view host.old) (H.view host.new) }
{
    let room = SCRIPT_LIMIT - input.len();
    let want = room.min(buffer.len()).max(1);
    let (front, _) = buffer.split_at_mut(want);
    let Ok(count) = host.take(front) else {
        return Err(Stop::ReadFault);
    };
    if count == 0 {
        return Ok(Piece::None);
    }
    if room == 0 {
        return Err(Stop::TooLong);
    }
    let (piece, _) = front.split_at(count);
    match input.extend_from_slice(piece) {
        Ok(()) => Ok(Piece::Some),
        Err(_) => Err(Stop::NoMemory),
    }
}
