//! Laws of texts and of how they are read.
ghost use Rattle.std.specs.Prelude.{ℕ, List};
ghost use Rattle.kh_text_defs.specs.declared.mode.Mode.{Mode};
ghost use Rattle.kh_read.specs.Exact.{FormsAreRead, IsReading, LaterBytesChangeNothing, OneTermEach, reading};

/// A text spells at most one term.
pub fn one_term()
    ensures { OneTermEach }
{}

/// What reading byte by byte says of bytes holds of them.
pub fn readings_are_exact()
    ensures { (mode : Mode) (bytes : List ℕ) → IsReading mode bytes (reading mode bytes) }
{}

/// A form within all limits is read, where what comes behind it may follow.
pub fn forms_are_read()
    ensures { FormsAreRead }
{}

/// Later bytes mend no fault and change no form that was read, where they may follow it.
pub fn readings_stay()
    ensures { LaterBytesChangeNothing }
{}
