//! The outside as the store sees it.
ghost use Rattle.std.specs.Prelude.{◌≡◌, ◌<◌, ◌≤◌, ◌+◌, ◌^◌, ℕ, List, Some, None, length, take, is_ok, IsOk, IsErr, IsSome, IfSome, IfOk, OnOk, OnErr};
ghost use Rattle.kh_io.specs.declared.files.Files.{Files};
ghost use Rattle.kh_io.specs.Call.{Take, Give, Len, ReadAt, WriteAt, Cut, Sync, answer, front_given};
ghost use Rattle.kh_io.specs.Told.{Kept, Gains};
ghost use Rattle.kh_io.specs.Host.{TakesOff, EndsOnlyAtEnd, Adds, MayAdd};
ghost use Rattle.kh_io.specs.Disk.{AreImages, put, Torn, CutBack, CutPart, Follows, Stays, IsSafe, IsReadAt, MayWrite};
ghost use Rattle.kh_io.specs.View.{View};
ghost use Rattle.kh_io.specs.Frames.{FileTold, FilesStay, OthersStay, StreamsStay, SinkStays, InputStays, Cause, DiskCause, Elapses, OfView};

use crate::Failed;

/// Four files by number: 0 and 1 are the snapshot and the log of slot 0, 2 and 3 those of slot 1.
///
/// What a host tells it may stop telling in a call, and never begins to tell.
pub trait Disk {
    /// What the host tells at its moment.
    ghost view: { Self → View };

    /// The length of a file.
    fn len(&mut self, file: u8) -> Result<u64, Failed>
        requires { file < 4 }
        ensures length { IfOk result (λ n. FileTold file (view self.old) (view self.new)
            (λ bytes _. n ≡ length bytes)) }
        ensures files { FilesStay (view self.old) (view self.new) }
        ensures time { Elapses (view self.old) (view self.new) }
        ensures cause { DiskCause (IsErr result) (view self.old) (view self.new) }
        ensures streams { StreamsStay (view self.old) (view self.new) }
        ensures entry { Gains (view self.old).journal (view self.new).journal
            (Len file (answer result)) };

    /// Puts the bytes of a file from a place on into the buffer, and returns how many: fewer than it holds only at the file's end.
    fn read_at(&mut self, file: u8, at: u64, into: &mut [u8]) -> Result<usize, Failed>
        requires { file < 4 }
        ensures within { IfOk result (λ n. n ≤ length into.new) }
        ensures bytes { IfOk result (λ n. FileTold file (view self.old) (view self.new)
            (λ bytes _. IsReadAt bytes at n into.new)) }
        ensures files { FilesStay (view self.old) (view self.new) }
        ensures time { Elapses (view self.old) (view self.new) }
        ensures cause { DiskCause (IsErr result) (view self.old) (view self.new) }
        ensures streams { StreamsStay (view self.old) (view self.new) }
        ensures entry { Gains (view self.old).journal (view self.new).journal
            (ReadAt file at (length into.new) (front_given result into.new)) };

    /// Writes over what is there, and past the end. Until a sync, a crash may leave any bytes in the range.
    fn write_at(&mut self, file: u8, at: u64, bytes: &[u8]) -> Result<(), Failed>
        requires file { file < 4 }
        requires room { MayWrite ((view self.old).seen file) at (length bytes.now) }
        ensures written { OnOk result (FileTold file (view self.old) (view self.new)
            (λ old new. new ≡ put old at bytes.now)) }
        ensures part_written { OnErr result
            (FileTold file (view self.old) (view self.new)
            (Torn at (length bytes.now))) }
        ensures images { Follows (IsOk result × IsSome ((view self.new).seen file))
            (Torn at (length bytes.now)) ((view self.old).image file) ((view self.new).image file) }
        ensures others { OthersStay file (view self.old) (view self.new) }
        ensures time { Elapses (view self.old) (view self.new) }
        ensures cause { DiskCause (IsErr result) (view self.old) (view self.new) }
        ensures streams { StreamsStay (view self.old) (view self.new) }
        ensures entry { Gains (view self.old).journal (view self.new).journal
            (WriteAt file at bytes.now (is_ok result)) };

    /// Cuts a file to a length. Until a sync, a crash may leave any length down to it, and any bytes past it.
    fn cut(&mut self, file: u8, len: u64) -> Result<(), Failed>
        requires file { file < 4 }
        requires len { IfSome ((view self.old).seen file) (λ old. len ≤ length old) }
        ensures cut { OnOk result (FileTold file (view self.old) (view self.new)
            (λ old new. new ≡ take len old)) }
        ensures part_cut { OnErr result
            (FileTold file (view self.old) (view self.new) (CutPart len)) }
        ensures images { Follows (IsOk result × IsSome ((view self.new).seen file)) (CutBack len)
            ((view self.old).image file) ((view self.new).image file) }
        ensures others { OthersStay file (view self.old) (view self.new) }
        ensures time { Elapses (view self.old) (view self.new) }
        ensures cause { DiskCause (IsErr result) (view self.old) (view self.new) }
        ensures streams { StreamsStay (view self.old) (view self.new) }
        ensures entry { Gains (view self.old).journal (view self.new).journal
            (Cut file len (is_ok result)) };

    /// After it, a crash leaves of the file what a read gives. Where it fails, nothing is safer than before.
    fn sync(&mut self, file: u8) -> Result<(), Failed>
        requires { file < 4 }
        ensures safe { OnOk result (IsSafe ((view self.new).seen file)
            ((view self.new).image file)) }
        ensures read { Kept ((view self.old).seen file) ((view self.new).seen file) }
        ensures no_new_images { (bytes : List ℕ) → (view self.new).image file bytes
            → (view self.old).image file bytes }
        ensures not_safe { OnErr result
            (Stays ((view self.old).seen file) ((view self.new).seen file)
            ((view self.old).image file) ((view self.new).image file)) }
        ensures others { OthersStay file (view self.old) (view self.new) }
        ensures time { Elapses (view self.old) (view self.new) }
        ensures cause { DiskCause (IsErr result) (view self.old) (view self.new) }
        ensures streams { StreamsStay (view self.old) (view self.new) }
        ensures entry { Gains (view self.old).journal (view self.new).journal
            (Sync file (is_ok result)) };

    /// What a read gives is one of the images.
    ghost seen_is_image: { (host : Self) (file : ℕ) (bytes : List ℕ) → file < 4 → (view host).seen file ≡ Some bytes → (view host).image file bytes };

    /// Of a file that isn't told there is no image.
    ghost untold_is_not_left: { (host : Self) (file : ℕ) (bytes : List ℕ) → file < 4 → (view host).seen file ≡ None → (view host).image file bytes → ⊥ };

    /// The stamp counts what the sink has taken.
    ghost stamp_counts: { (host : Self) (bytes : List ℕ) → (view host).given ≡ Some bytes → (view host).stamp ≡ length bytes };

    /// This moment is one of those since an earlier one.
    ghost counts_now: { (host : Self) (t : ℕ) (files : Files) → t ≤ (view host).moment → AreImages (view host).image files → (view host).since t files (view host).stamp };

    /// Since this moment there is no other.
    ghost only_now: { (host : Self) (files : Files) (s : ℕ) → (view host).since (view host).moment files s → OfView (view host) files s };
}

/// The input, the sink of the output, and the disk.
pub trait Host: Disk {
    /// Puts first bytes of the input into the buffer and takes them off, and returns how many.
    /// It returns 0 for a buffer with room only at the end of the input.
    fn take(&mut self, into: &mut [u8]) -> Result<usize, Failed>
        ensures within { IfOk result (λ n. n ≤ length into.new) }
        ensures taken { IfOk result (λ n. TakesOff (Self.view self.old).left
            (Self.view self.new).left n into.new) }
        ensures end { IfOk result (λ n. EndsOnlyAtEnd (Self.view self.old).left
            (Self.view self.new).left n into.new) }
        ensures none_taken { OnErr result
            (Kept (Self.view self.old).left (Self.view self.new).left) }
        ensures cause { Cause (IsErr result) (Self.view self.old).faults.reads
            (Self.view self.new).faults.reads }
        ensures files { FilesStay (Self.view self.old) (Self.view self.new) }
        ensures time { Elapses (Self.view self.old) (Self.view self.new) }
        ensures sink { SinkStays (Self.view self.old) (Self.view self.new) }
        ensures entry { Gains (Self.view self.old).journal (Self.view self.new).journal
            (Take (length into.new) (front_given result into.new)) };

    /// Adds first bytes of the piece to what the sink has taken, and returns how many: at least one of a piece that has one.
    /// Where it fails, the sink may have taken any front of the piece.
    fn give(&mut self, bytes: &[u8]) -> Result<usize, Failed>
        ensures within { IfOk result (λ n. n ≤ length bytes.now) }
        ensures some { IfOk result (λ n. 0 < length bytes.now → 0 < n) }
        ensures added { IfOk result (λ n. Adds (Self.view self.old).given
            (Self.view self.new).given n bytes.now) }
        ensures front_added { OnErr result
            (MayAdd (Self.view self.old).given (Self.view self.new).given bytes.now) }
        ensures cause { Cause (IsErr result) (Self.view self.old).faults.writes
            (Self.view self.new).faults.writes }
        ensures files { FilesStay (Self.view self.old) (Self.view self.new) }
        ensures time { Elapses (Self.view self.old) (Self.view self.new) }
        ensures input { InputStays (Self.view self.old) (Self.view self.new) }
        ensures entry { Gains (Self.view self.old).journal (Self.view self.new).journal
            (Give bytes.now (answer result)) };
}
