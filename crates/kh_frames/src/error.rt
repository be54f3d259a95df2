// The ways in which a call of `Frames` fails.
ghost use Rattle.std.specs.Prelude.{◌≡◌};
ghost use Rattle.kh_frames.specs.declared.error.FrameError.TheVariants.{NoMemory};

use thiserror::Error;

/// Why a call of `Frames` was refused. The state is then as before.
#[derive(Clone, Copy, Debug, PartialEq, Eq, Error)]
pub enum FrameError {
    /// The rules of registers, frames and catches forbid the call.
    #[error("bad code")]
    BadCode,
    /// The slots of all frames and the waiting calls would be more than 100,000.
    #[error("too many slots and waiting calls")]
    Limit,
    /// The allocator refused a block.
    #[error("out of memory")]
    NoMemory,
}

impl From<kh_term::NoMemory> for FrameError {
    ghost from_gives = { λ _ e. e ≡ NoMemory };

    fn from(_error: kh_term::NoMemory) -> FrameError {
        FrameError::NoMemory
    }
}
