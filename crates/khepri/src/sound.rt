//! The top call over a host that never fails.
ghost use Rattle.std.specs.Prelude.{◌≡◌, ◌≢◌, ◌↔◌, false, IsTrue};
ghost use Rattle.kh_io.specs.Frames.{FilesTold};
ghost use Rattle.kh_store.specs.Recovery.{Recovery, Recovers};
ghost use Rattle.khepri.specs.Words.{are_right};
ghost use Rattle.khepri.specs.Run.{TellsEnding};
ghost use Rattle.khepri.specs.Sound.{NeverFails};

use crate::top::khepri;
use kh_io::Host;
use std::alloc::Global;

/// The status of a run over a host whose counts of faults are always 0.
pub fn answer_soundly<H: Host>(alloc: Global, words: &[String], host: &mut H) -> u8
    requires { NeverFails H.view }
    ensures no_read_fault { result ≢ 3 }
    ensures no_write_fault { result ≢ 4 }
    ensures no_disk_fault { result ≢ 5 }
    ensures status { IsTrue (are_right words.now) → FilesTold (H.view host.old) (H.view host.new)
        (λ files. (found : Recovery) → Recovers files found
        → TellsEnding result found (H.view host.old) (H.view host.new)) }
    ensures words { (result ≡ 7) ↔ (are_right words.now ≡ false) }
{
    khepri(alloc, words, host)
}
