//! Writes that a crash doesn't undo once they are done.
ghost use Rattle.std.specs.Prelude.{◌≡◌, ◌≤◌, ◌<◌, ◌+◌, ◌^◌, ◌∷◌, ◌++◌, ℕ, List, length, IfSome, IsErr, OnOk};
ghost use Rattle.kh_io.specs.Disk.{put, IsSafe};
ghost use Rattle.kh_io.specs.Frames.{FileTold, Leaves, WritesFile, DiskCause};
ghost use Rattle.kh_log.specs.Records.{open_gate};
ghost use Rattle.kh_log.specs.Log.{EndsAt, IsGroup, IsTornOf, MayGainGroup};

use crate::OPEN;
use kh_io::{Disk, Failed};

/// Writes these bytes at a place of a file and makes them safe.
pub(crate) fn write_durably<D: Disk>(
    disk: &mut D,
    file: u8,
    at: u64,
    bytes: &[u8],
) -> Result<(), Failed>
    requires file { file < 4 }
    requires start { IfSome ((D.view disk.old).seen file) (λ old. at ≤ length old) }
    requires end { at + length bytes.now ≤ 2 ^ 62 }
    ensures written { OnOk result (FileTold file (D.view disk.old) (D.view disk.new)
        (λ old new. new ≡ put old at bytes.now)) }
    ensures safe { OnOk result (IsSafe ((D.view disk.new).seen file)
        ((D.view disk.new).image file)) }
    ensures images { (left : List ℕ) → (D.view disk.new).image file left
        → IsTornOf ((D.view disk.old).image file) at (length bytes.now) left }
    ensures writes { WritesFile file
        (Leaves file (IsTornOf ((D.view disk.old).image file) at (length bytes.now))
        (D.view disk.old)) (D.view disk.old) (D.view disk.new) }
    ensures cause { DiskCause (IsErr result) (D.view disk.old) (D.view disk.new) }
{
    disk.write_at(file, at, bytes)?;
    disk.sync(file)
}

/// Puts a group behind the closed gate at this place, and then opens the gate.
pub(crate) fn open_behind<D: Disk>(
    disk: &mut D,
    file: u8,
    last: u64,
    bytes: &[u8],
) -> Result<(), Failed>
    requires file { file < 4 }
    requires start { IfSome ((D.view disk.old).seen file) (λ was. last < length was) }
    requires end { last + 1 + length bytes.now ≤ 2 ^ 62 }
    ensures appended { OnOk result (FileTold file (D.view disk.old) (D.view disk.new) (λ was now.
        (rs more : List (List ℕ)) → IsGroup more bytes.now → EndsAt last rs was
        → EndsAt (last + length bytes.now) (rs ++ more) now)) }
    ensures written { OnOk result (FileTold file (D.view disk.old) (D.view disk.new)
        (λ was now. now ≡ put was last (open_gate ∷ bytes.now))) }
    ensures safe { OnOk result (IsSafe ((D.view disk.new).seen file)
        ((D.view disk.new).image file)) }
    ensures images { (left : List ℕ) → (D.view disk.new).image file left
        → MayGainGroup ((D.view disk.old).image file) last bytes.now left }
    ensures writes { WritesFile file
        (Leaves file (MayGainGroup ((D.view disk.old).image file) last bytes.now) (D.view disk.old))
        (D.view disk.old) (D.view disk.new) }
    ensures cause { DiskCause (IsErr result) (D.view disk.old) (D.view disk.new) }
{
    write_durably(disk, file, last + 1, bytes)?;
    // What stands behind the gate has to be on the disk first: behind a gate that is torn open it counts.
    write_durably(disk, file, last, &[OPEN])
}
