//! A host that never fails, for tests.
use kh_io::{Disk, Failed, Host};
use std::alloc::Global;

/// A host whose calls move at most so many bytes, and never fail.
#[derive(Drop)]
pub struct SlowHost {
    input: Vec<u8>,
    taken: usize,
    step: usize,
    output: Vec<u8>,
    is_whole: bool,
    calls: u64,
}

impl SlowHost {
    pub fn new(alloc: Global, input: Vec<u8>, step: usize) -> SlowHost {
        SlowHost {
            input,
            taken: 0,
            step: step.max(1),
            output: Vec::new(alloc),
            is_whole: true,
            calls: 0,
        }
    }

    /// What the sink has taken, unless memory ran out.
    pub fn output(&self) -> Option<&[u8]> {
        self.is_whole.then_some(self.output.as_slice())
    }

    /// How many calls there were.
    pub fn calls(&self) -> u64 {
        self.calls
    }
}

impl Disk for SlowHost {
    ghost use Rattle.kh_io.specs.Laws.{untold_is_left, untold_images};
    ghost use Rattle.kh_io.specs.View.{untold};
    ghost use Rattle.khepri.specs.Sound.{none_failed};

    ghost view = { λ _. untold none_failed };

    ghost seen_is_image = { λ _ _ bytes _ same. untold_is_left bytes same };

    ghost untold_is_not_left = { λ _ _ _ _ _ none. none };

    ghost stamp_counts = { λ _ bytes same. untold_is_left bytes same };

    ghost counts_now = { λ _ _ files _ images. untold_images files images };

    ghost only_now = { λ _ _ _ none. absurd none };

    fn len(&mut self, _file: u8) -> Result<u64, Failed> {
        Ok(0)
    }

    fn read_at(&mut self, _file: u8, _at: u64, _into: &mut [u8]) -> Result<usize, Failed> {
        Ok(0)
    }

    fn write_at(&mut self, _file: u8, _at: u64, _bytes: &[u8]) -> Result<(), Failed> {
        Ok(())
    }

    fn cut(&mut self, _file: u8, _len: u64) -> Result<(), Failed> {
        Ok(())
    }

    fn sync(&mut self, _file: u8) -> Result<(), Failed> {
        Ok(())
    }
}

impl Host for SlowHost {
    fn take(&mut self, into: &mut [u8]) -> Result<usize, Failed> {
        self.calls = self.calls.saturating_add(1);
        let (_, left) = self.input.split_at(self.taken.min(self.input.len()));
        let count = left.len().min(into.len()).min(self.step);
        into[..count].copy_from_slice(&left[..count]);
        self.taken = self.taken.saturating_add(count);
        Ok(count)
    }

    fn give(&mut self, bytes: &[u8]) -> Result<usize, Failed> {
        self.calls = self.calls.saturating_add(1);
        let count = bytes.len().min(self.step.max(1));
        if self.output.extend_from_slice(&bytes[..count]).is_err() {
            self.is_whole = false;
        }
        Ok(count)
    }
}
