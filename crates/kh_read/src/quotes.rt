//! What a byte does in a text in quotes.
ghost use Rattle.std.specs.Prelude.{◌≡◌, ◌<◌, ◌≤◌, IfSome, not};
ghost use Rattle.std.specs.Option.{is_none};
ghost use Rattle.kh_text_defs.specs.declared.mode.Mode.TheVariants.{Script};
ghost use Rattle.kh_text_defs.specs.Tokens.{escaped};
ghost use Rattle.std.specs.Char.{digit_value, is_ascii_hexdigit, len_utf8};
ghost use Rattle.kh_read.specs.State.{Go, Quote};
ghost use Rattle.kh_read.specs.Steps.{at, bound, can_be_code, is_surrogate, lead, quote_of, step_code, step_plain, step_quote, step_slash, used, with_point};
ghost use Rattle.kh_read.specs.declared.places.Inner.TheVariants as inners;
ghost use Rattle.kh_read.specs.Views.{code_digit, frames_of, inner_of, quoting_of, use_of, state_of, Gives};

use crate::ended::quote_ended;
use crate::follow::Follow;
use crate::places::{Frame, Inner, Place, Quoting, Use};
use crate::state::{State, Stop, go};
use kh_text_defs::Mode;
use sqlite_items::Items;
use std::alloc::Global;

// The byte that ends a text.
fn quote_of(purpose: Use) -> u8
    ensures { result ≡ quote_of (use_of purpose) }
{
    match purpose {
        Use::Name(_) => b'\'',
        Use::List | Use::Segment => b'"',
    }
}

// What a further code point has to be below.
fn bound(mode: Mode, purpose: Use) -> u32
    ensures value { result ≡ bound mode (use_of purpose) }
    ensures most { result ≤ 0x110000 }
{
    match (purpose, mode) {
        (Use::Name(0), _) => 0,
        (Use::Name(1), _) => 0x80,
        (Use::Name(2), _) => 0x800,
        (Use::Name(3), _) => 0x1_0000,
        (Use::Segment, Mode::Script) => 0x100,
        _ => 0x11_0000,
    }
}

// The bytes of the UTF-8 of a code point.
fn len_utf8(point: u32) -> usize
    ensures { result ≡ len_utf8 point }
{
    if point < 0x80 {
        1
    } else if point < 0x800 {
        2
    } else if point < 0x1_0000 {
        3
    } else {
        4
    }
}

// What it is for behind a code point more.
fn used(purpose: Use, point: u32) -> Use
    ensures { use_of result ≡ used (use_of purpose) point }
{
    match purpose {
        Use::Name(left) => Use::Name(left.saturating_sub(len_utf8(point))),
        Use::List => Use::List,
        Use::Segment => Use::Segment,
    }
}

// A place in a text.
fn within(frames: Items<Frame>, quoting: Quoting, inner: Inner) -> State
    ensures { Go (state_of result)
        ≡ at (Quote (quoting_of quoting) (inner_of inner)) (frames_of frames) }
{
    go(Place::Quote(quoting, inner), frames)
}

// A code point more.
fn with_point(frames: Items<Frame>, quoting: Quoting, point: u32) -> Result<State, Stop>
    ensures { Gives result (with_point (frames_of frames) (quoting_of quoting) point) }
{
    let mut points = quoting.points;
    points.push(point)?;
    let purpose = used(quoting.purpose, point);
    Ok(within(frames, Quoting { purpose, points }, Inner::Plain))
}

// The first byte of a code point of two, three or four bytes.
fn lead(frames: Items<Frame>, quoting: Quoting, below: u32, byte: u8) -> Result<State, Stop>
    ensures { Gives result (lead (frames_of frames) (quoting_of quoting) below byte) }
{
    let inner = match byte {
        0xC2..=0xDF if (u32::from(byte) - 0xC0) * 64 < below => {
            Inner::Follow(Follow {
                count: 0,
                low: 0x80,
                high: 0xBF,
                value: u32::from(byte) - 0xC0,
            })
        }
        0xE0 if 0x800 < below => Inner::Follow(Follow {
            count: 1,
            low: 0xA0,
            high: 0xBF,
            value: 0,
        }),
        0xED if 0x800 < below => Inner::Follow(Follow {
            count: 1,
            low: 0x80,
            high: 0x9F,
            value: 13,
        }),
        0xE1..=0xEF if 0x800 < below => Inner::Follow(Follow {
            count: 1,
            low: 0x80,
            high: 0xBF,
            value: u32::from(byte) - 0xE0,
        }),
        0xF0 if 0x1_0000 < below => Inner::Follow(Follow {
            count: 2,
            low: 0x90,
            high: 0xBF,
            value: 0,
        }),
        0xF4 if 0x1_0000 < below => Inner::Follow(Follow {
            count: 2,
            low: 0x80,
            high: 0x8F,
            value: 4,
        }),
        0xF1..=0xF3 if 0x1_0000 < below => Inner::Follow(Follow {
            count: 2,
            low: 0x80,
            high: 0xBF,
            value: u32::from(byte) - 0xF0,
        }),
        _ => return Err(Stop::Syntax),
    };
    Ok(within(frames, quoting, inner))
}

// Between two characters.
#[tactic(auto, unfolding(crate::specs::Steps::step_plain))]
fn step_plain(
    alloc: Global,
    mode: Mode,
    frames: Items<Frame>,
    quoting: Quoting,
    byte: u8,
) -> Result<State, Stop>
    ensures { Gives result (step_plain mode (frames_of frames) (quoting_of quoting) byte) }
{
    if byte == quote_of(quoting.purpose) {
        return quote_ended(alloc, frames, quoting);
    }
    let below = bound(mode, quoting.purpose);
    if below == 0 {
        return Err(Stop::Syntax);
    }
    if byte == b'\\' {
        return Ok(within(frames, quoting, Inner::Slash));
    }
    if byte < 0x80 {
        return with_point(frames, quoting, u32::from(byte));
    }
    lead(frames, quoting, below, byte)
}

// What a byte behind a backslash stands for.
fn escaped(byte: u8) -> Option<u32>
    ensures { result ≡ escaped byte }
{
    match byte {
        b'\\' => Some(92),
        b'\'' => Some(39),
        b'"' => Some(34),
        b'n' => Some(10),
        b'r' => Some(13),
        b't' => Some(9),
        b's' => Some(32),
        _ => None,
    }
}

// Behind a backslash.
#[tactic(auto, unfolding(crate::specs::Steps::step_slash))]
fn step_slash(frames: Items<Frame>, quoting: Quoting, byte: u8) -> Result<State, Stop>
    ensures { Gives result (step_slash (frames_of frames) (quoting_of quoting) byte) }
{
    if byte == b'x' {
        return Ok(within(frames, quoting, Inner::Brace));
    }
    match escaped(byte) {
        Some(point) => with_point(frames, quoting, point),
        None => Err(Stop::Syntax),
    }
}

// The value of a hexadecimal digit.
fn hex_value(byte: u8) -> Option<u32>
    ensures none { is_none result ≡ not (is_ascii_hexdigit byte) }
    ensures value { IfSome result (λ value. value ≡ digit_value byte) }
{
    match byte {
        b'0'..=b'9' => Some(u32::from(byte - b'0')),
        b'a'..=b'f' => Some(u32::from(byte - b'a') + 10),
        b'A'..=b'F' => Some(u32::from(byte - b'A') + 10),
        _ => None,
    }
}

// Whether a code point is a surrogate, which is none.
fn is_surrogate(point: u32) -> bool
    ensures { result ≡ is_surrogate point }
{
    0xD800 <= point && point <= 0xDFFF
}

// Whether so many digits with this value can be those of a code point below a bound, or the first of them.
fn can_be_code(below: u32, count: u32, value: u32) -> bool
    requires { below ≤ 0x110000 }
    ensures { result ≡ can_be_code below count value }
{
    value < below && (!is_surrogate(value) || (count < 6 && value * 16 < below))
}

// One more digit of a code.
fn code_digit(
    mode: Mode,
    frames: Items<Frame>,
    quoting: Quoting,
    code: (u32, u32),
    digit: u32,
) -> Result<State, Stop>
    requires { digit < 16 }
    ensures { Gives result (code_digit mode (frames_of frames) (quoting_of quoting) code digit) }
{
    let (count, value) = code;
    let below = bound(mode, quoting.purpose);
    if count >= 6 || value >= 0x11_0000 {
        return Err(Stop::Syntax);
    }
    let value = value * 16 + digit;
    if can_be_code(below, count + 1, value) {
        return Ok(within(frames, quoting, Inner::Code(count + 1, value)));
    }
    Err(Stop::Syntax)
}

// Behind some digits of a code.
#[tactic(auto, unfolding(crate::specs::Steps::step_code))]
fn step_code(
    mode: Mode,
    frames: Items<Frame>,
    quoting: Quoting,
    code: (u32, u32),
    byte: u8,
) -> Result<State, Stop>
    ensures { Gives result (step_code mode (frames_of frames) (quoting_of quoting) code byte) }
{
    match hex_value(byte) {
        Some(digit) => code_digit(mode, frames, quoting, code, digit),
        None => {
            if byte == b'}' && 0 < code.0 && !is_surrogate(code.1) {
                return with_point(frames, quoting, code.1);
            }
            Err(Stop::Syntax)
        }
    }
}

// The next byte of a code point of several.
#[tactic(auto, using(crate::proofs::Follows::follows), unfolding(crate::specs::Steps::step_quote))]
fn step_follow(
    frames: Items<Frame>,
    quoting: Quoting,
    follow: Follow,
    byte: u8,
) -> Result<State, Stop>
    ensures { Gives result
        (step_quote Script (frames_of frames) (quoting_of quoting)
        (inner_of (inners.Follow follow)) byte) }
{
    if byte < follow.low || follow.high < byte {
        return Err(Stop::Syntax);
    }
    let value = follow.value * 64 + (u32::from(byte) - 0x80);
    if follow.count == 0 {
        return with_point(frames, quoting, value);
    }
    let next = Follow {
        count: follow.count - 1,
        low: 0x80,
        high: 0xBF,
        value,
    };
    Ok(within(frames, quoting, Inner::Follow(next)))
}

/// A byte of a text in quotes.
#[tactic(auto, unfolding(crate::specs::Steps::step_quote))]
pub fn step_quote(
    alloc: Global,
    mode: Mode,
    frames: Items<Frame>,
    quoting: Quoting,
    inner: Inner,
    byte: u8,
) -> Result<State, Stop>
    ensures { Gives result
        (step_quote mode (frames_of frames) (quoting_of quoting) (inner_of inner) byte) }
{
    match inner {
        Inner::Plain => step_plain(alloc, mode, frames, quoting, byte),
        Inner::Slash => step_slash(frames, quoting, byte),
        Inner::Brace if byte == b'{' => Ok(within(frames, quoting, Inner::Code(0, 0))),
        Inner::Brace => Err(Stop::Syntax),
        Inner::Code(count, value) => step_code(mode, frames, quoting, (count, value), byte),
        Inner::Follow(follow) => step_follow(frames, quoting, follow, byte),
    }
}
