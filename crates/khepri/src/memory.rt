//! The top call over a host in memory, which tells all.
ghost use Rattle.std.specs.Prelude.{◌≡◌, ◌++◌, ℕ, List, IsTrue};
ghost use Rattle.kh_io.specs.Memory.{Memory, memory_view};
ghost use Rattle.kh_io.specs.Recording.{given_in, left_after};
ghost use Rattle.kh_store.specs.State.{State};
ghost use Rattle.kh_store.specs.Recovery.{Recovered, Damaged, Recovers};
ghost use Rattle.khepri.specs.Words.{are_right};
ghost use Rattle.khepri.specs.Run.{Ran, Reports};
ghost use Rattle.khepri.specs.InMemory.{files_now, passed_by};

use crate::top::khepri;
use kh_io::MemoryHost;
use std::alloc::Global;

/// The status of a run over a host in memory: what the clauses of `khepri` say of it, with its own values.
pub fn answer_in_memory(alloc: Global, words: &[String], host: &mut MemoryHost) -> u8
    ensures ran { IsTrue (are_right words.now) → (first : State)
        → Recovers (files_now host.old) (Recovered first) → (given : List ℕ)
        × (given_in host.new.tape.calls ≡ given_in host.old.tape.calls ++ given)
        × Ran first result (passed_by host.old host.new given) (memory_view host.old)
        (memory_view host.new) }
    ensures damaged { IsTrue (are_right words.now) → (file offset : ℕ)
        → Recovers (files_now host.old) (Damaged file offset)
        → Reports file offset result (memory_view host.old) (memory_view host.new) }
{
    khepri(alloc, words, host)
}
