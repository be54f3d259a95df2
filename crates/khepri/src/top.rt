//! The top call.
ghost use Rattle.std.specs.Prelude.{◌≡◌, ◌↔◌, false, IsTrue};
ghost use Rattle.kh_io.specs.Frames.{FilesTold, Causes};
ghost use Rattle.kh_store.specs.Recovery.{Recovery, Recovers};
ghost use Rattle.khepri.specs.Words.{are_right};
ghost use Rattle.khepri.specs.Run.{Runs, FindsDamage, NoneRose, OneScript, TellsEnding};

use crate::run::run;
use kh_io::Host;
use std::alloc::Global;

/// Opens the store in the files of the host and answers the script that it gives, where the words are the one word `run`.
/// Returns the status:
/// 0 the whole script was answered; 1 the files are damaged; 2 bytes that are no form; 3 a read failed; 4 a write failed;
/// 5 the disk failed; 6 memory ran out; 7 other words; 9 a script of more than 67,108,864 bytes.
pub fn khepri<H: Host>(alloc: Global, words: &[String], host: &mut H) -> u8
    // Where the files at entry recover to a state: what was given is a front of the replies to the commands, executed from that state
    // on, at 0, 2 and 9 all of them, at 3 those to the lines that had come whole; at 4 and 6 at most one command more was executed than was
    // answered; at 5 nothing was taken, or those before one logged command were answered. A crash at any moment since entry leaves what a
    // crash at entry might have left, with nothing given, or the state after the first k commands, among which is each whose reply has
    // begun; after 0 it leaves the state after all.
    // Where they are damaged: the line that says so is given, or a front of it, and reads and crashes give what they gave.
    ensures session { IsTrue (are_right words.now) → FilesTold (H.view host.old) (H.view host.new)
        (λ files. (found : Recovery) → Recovers files found
        → Runs found result (H.view host.old) (H.view host.new)) }

    // Where no call of the host fails, the status says how the run ends, and it is 1 only over damaged files.
    ensures status { IsTrue (are_right words.now) → NoneRose (H.view host.old) (H.view host.new)
        → FilesTold (H.view host.old) (H.view host.new)
        (λ files. (found : Recovery) → Recovers files found
        → TellsEnding result found (H.view host.old) (H.view host.new)) }
    ensures damage { result ≡ 1 → FilesTold (H.view host.old) (H.view host.new) FindsDamage }

    // The count of failed calls that the status names rose, and each other is as it was.
    ensures causes { Causes (result ≡ 3) (result ≡ 4) (result ≡ 5) (H.view host.old)
        (H.view host.new) }

    // Other words are seen before the host is touched.
    ensures words { (result ≡ 7) ↔ (are_right words.now ≡ false) }
    ensures untouched { result ≡ 7 → host.new ≡ host.old }
{
    if !are_right(words) {
        return 7;
    }
    match run(alloc, host) {
        Ok(()) => 0,
        Err(stop) => stop.status(),
    }
}

/// Whether the words are the one word `run`.
pub fn are_right(words: &[String]) -> bool
    ensures { result ≡ are_right words.now }
{
    match words {
        [word] => word.as_str() == "run",
        _ => false,
    }
}

/// Each script has exactly one list of commands and one ending.
pub fn one_script()
    ensures { OneScript }
{}
