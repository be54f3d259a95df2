//! What is done to the files before a log is opened.
ghost use Rattle.std.specs.Prelude.{◌≡◌, ◌<◌, ℕ, List, [], ◌∷◌, OnOk, IsErr, IsSome};
ghost use Rattle.kh_io.specs.Told.{Kept};
ghost use Rattle.kh_io.specs.Disk.{IsSafe};
ghost use Rattle.kh_io.specs.Frames.{FileTold, AreSafe, OfView, During, StreamsStay, Leaves, WritesFile, DiskCause};
ghost use Rattle.kh_store.specs.Store.{IsShort, StaysOrShort, Begun, IsOrShort};
ghost use Rattle.kh_store.specs.Opening.{WasShort};

use kh_io::{Failed, Host};

/// Makes all files safe.
pub fn sync_all<H: Host>(host: &mut H) -> Result<(), Failed>
    ensures safe { OnOk result (AreSafe (H.view host.new)) }
    ensures reads { (file : ℕ) → file < 4
        → Kept ((H.view host.old).seen file) ((H.view host.new).seen file) }
    ensures no_new_images { (file : ℕ) → file < 4 → (bytes : List ℕ)
        → (H.view host.new).image file bytes → (H.view host.old).image file bytes }
    ensures during { During (OfView (H.view host.old)) (H.view host.old) (H.view host.new) }
    ensures streams { StreamsStay (H.view host.old) (H.view host.new) }
    ensures cause { DiskCause (IsErr result) (H.view host.old) (H.view host.new) }
{
    for file in 0..4 {
        host.sync(file)?;
    }
    Ok(())
}

/// Begins a log in file 1 where there is none.
pub fn begin_log<H: Host>(host: &mut H) -> Result<(), Failed>
    requires safe { IsSafe ((H.view host.old).seen 1) ((H.view host.old).image 1) }
    ensures begun { OnOk result (FileTold 1 (H.view host.old) (H.view host.new) Begun) }
    ensures safe { OnOk result (IsSafe ((H.view host.new).seen 1) ((H.view host.new).image 1)) }
    ensures reads { FileTold 1 (H.view host.old) (H.view host.new) StaysOrShort }
    ensures images { (bytes : List ℕ) → (H.view host.new).image 1 bytes
        → IsOrShort ((H.view host.old).image 1) (WasShort ((H.view host.old).seen 1)) bytes }
    ensures writes { WritesFile 1 (Leaves 1
        (IsOrShort ((H.view host.old).image 1) (WasShort ((H.view host.old).seen 1)))
        (H.view host.old)) (H.view host.old) (H.view host.new) }
    ensures cause { DiskCause (IsErr result) (H.view host.old) (H.view host.new) }
{
    if host.len(1)? < 2 {
        write_empty(host)?;
    }
    Ok(())
}

// Writes a log without records in the place of a file that is too short for one.
fn write_empty<H: Host>(host: &mut H) -> Result<(), Failed>
    requires short { (bytes : List ℕ) → (H.view host.old).image 1 bytes → IsShort bytes }
    ensures written { OnOk result (FileTold 1 (H.view host.old) (H.view host.new)
        (λ _ now. now ≡ 0 ∷ [])) }
    ensures short { (bytes : List ℕ) → (H.view host.new).image 1 bytes → IsShort bytes }
    ensures safe { OnOk result (IsSafe ((H.view host.new).seen 1) ((H.view host.new).image 1)) }
    ensures writes { WritesFile 1 (Leaves 1
        (λ bytes. IsSome ((H.view host.old).seen 1) × IsShort bytes) (H.view host.old))
        (H.view host.old) (H.view host.new) }
    ensures cause { DiskCause (IsErr result) (H.view host.old) (H.view host.new) }
{
    host.cut(1, 0)?;
    host.write_at(1, 0, &[0])?;
    host.sync(1)
}
