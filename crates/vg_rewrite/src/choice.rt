//! In which width a value, a shift to the right and a comparison can be had.

ghost use Rattle.std.specs.Prelude.{◌≡◌, ◌<◌};
ghost use Rattle.vg_base.specs.Width.{bits_of};
ghost use Rattle.vg_rewrite.specs.Choice.{both_signed, both_unsigned, compared_at, compared_below, comparison_choice, is_enough, low_shift, natural_width, or_compared, or_shift, shift_at, shift_between, shift_choice};

use vg_base::Width;
use vg_scalar::Shift;
use vg_spans::Span;

/// How numbers are compared.
#[derive(Clone, Copy)]
pub enum Reading {
    Signed,
    Unsigned,
    /// As equal, which is told by either.
    Either,
}

/// A width in which numbers compare as they do by theirs, and the reading there.
#[derive(Clone, Copy)]
pub struct Compared {
    pub width: Width,
    pub reading: Reading,
}

/// A width in which a shift to the right has the bits that are asked for, and the shift there.
#[derive(Clone, Copy)]
pub struct Shifted {
    pub width: Width,
    pub op: Shift,
}

// Whether a width is that of the value, or one reading of it has all of the value's span.
fn is_enough(own: Width, span: Span, width: Width) -> bool
    ensures { result ≡ is_enough own span width }
{
    width.bits() == own.bits() || (span.is_signed(width.bits()) || span.is_unsigned(width.bits()))
}

/// The least width that is a value's, or of which one reading has all of its span.
pub fn natural_width(own: Width, span: Span) -> Width
    ensures { result ≡ natural_width own span }
{
    if is_enough(own, span, Width::W8) {
        Width::W8
    } else if is_enough(own, span, Width::W16) {
        Width::W16
    } else if is_enough(own, span, Width::W32) {
        Width::W32
    } else {
        Width::W64
    }
}

// Where the low bits that are asked for come from below a width.
fn low_shift(amount: u32, asked: Width, width: Width) -> Option<Shift>
    requires { amount < 64 }
    ensures { result ≡ low_shift amount (bits_of asked) (bits_of width) }
{
    if amount + asked.bits() <= width.bits() {
        Some(Shift::Lshr)
    } else {
        None
    }
}

// Of a number that is shifted unsigned.
fn unsigned_shift_at(
    amount: u32,
    own: Width,
    span: Span,
    asked: Width,
    width: Width,
) -> Option<Shift>
    requires { amount < 64 }
    ensures { result
        ≡ shift_at Shift.Lshr amount (bits_of own) span (bits_of asked) (bits_of width) }
{
    if span.is_unsigned(own.bits()) && (span.is_unsigned(width.bits()) && amount < width.bits()) {
        Some(Shift::Lshr)
    } else {
        low_shift(amount, asked, width)
    }
}

// Of a number that is shifted signed.
fn signed_shift_at(amount: u32, own: Width, span: Span, asked: Width, width: Width) -> Option<Shift>
    requires { amount < 64 }
    ensures { result
        ≡ shift_at Shift.Ashr amount (bits_of own) span (bits_of asked) (bits_of width) }
{
    let signed = span.is_signed(own.bits());
    let fits = amount < width.bits();
    if signed && (span.is_unsigned(width.bits()) && fits) {
        Some(Shift::Lshr)
    } else if signed && (span.is_signed(width.bits()) && fits) {
        Some(Shift::Ashr)
    } else {
        low_shift(amount, asked, width)
    }
}

fn shift_at(
    op: Shift,
    amount: u32,
    own: Width,
    span: Span,
    asked: Width,
    width: Width,
) -> Option<Shift>
    requires { amount < 64 }
    ensures { result ≡ shift_at op amount (bits_of own) span (bits_of asked) (bits_of width) }
{
    match op {
        Shift::Shl => None,
        Shift::Lshr => unsigned_shift_at(amount, own, span, asked, width),
        Shift::Ashr => signed_shift_at(amount, own, span, asked, width),
    }
}

fn shift_between(
    op: Shift,
    amount: u32,
    own: Width,
    span: Span,
    asked: Width,
    width: Width,
) -> Option<Shift>
    requires { amount < 64 }
    ensures { result ≡ shift_between op amount own span asked width }
{
    if asked.bits() <= width.bits() && width.bits() < own.bits() {
        shift_at(op, amount, own, span, asked, width)
    } else {
        None
    }
}

// A shift where there is one at a width, else the other.
fn or_shift(found: Option<Shift>, width: Width, other: Shifted) -> Shifted
    ensures { result ≡ or_shift found width other }
{
    match found {
        Some(op) => Shifted { width, op },
        None => other,
    }
}

/// The shift to the right that has the low bits that are asked for of a shift of a number with this
/// span: the one of the least width, else the shift itself.
pub fn shift_choice(op: Shift, amount: u32, own: Width, span: Span, asked: Width) -> Shifted
    requires { amount < 64 }
    ensures { result ≡ shift_choice op amount own span asked }
{
    let at_8 = shift_between(op, amount, own, span, asked, Width::W8);
    let at_16 = shift_between(op, amount, own, span, asked, Width::W16);
    let at_32 = shift_between(op, amount, own, span, asked, Width::W32);
    let last = or_shift(at_32, Width::W32, Shifted { width: own, op });
    or_shift(at_8, Width::W8, or_shift(at_16, Width::W16, last))
}

fn both_signed(width: Width, x: Span, y: Span) -> bool
    ensures { result ≡ both_signed (bits_of width) x y }
{
    x.is_signed(width.bits()) && y.is_signed(width.bits())
}

fn both_unsigned(width: Width, x: Span, y: Span) -> bool
    ensures { result ≡ both_unsigned (bits_of width) x y }
{
    x.is_unsigned(width.bits()) && y.is_unsigned(width.bits())
}

// Of numbers that are compared signed.
fn signed_at(own: Width, x: Span, y: Span, width: Width) -> Option<Reading>
    ensures { result ≡ compared_at Reading.Signed (bits_of own) x y (bits_of width) }
{
    if both_signed(own, x, y) {
        if both_signed(width, x, y) {
            Some(Reading::Signed)
        } else if both_unsigned(width, x, y) {
            Some(Reading::Unsigned)
        } else {
            None
        }
    } else {
        None
    }
}

fn compared_at(how: Reading, own: Width, x: Span, y: Span, width: Width) -> Option<Reading>
    ensures { result ≡ compared_at how (bits_of own) x y (bits_of width) }
{
    match how {
        Reading::Signed => signed_at(own, x, y, width),
        Reading::Unsigned => {
            if both_unsigned(own, x, y) && both_unsigned(width, x, y) {
                Some(Reading::Unsigned)
            } else {
                None
            }
        }
        Reading::Either => {
            if both_signed(width, x, y) || both_unsigned(width, x, y) {
                Some(Reading::Either)
            } else {
                None
            }
        }
    }
}

fn compared_below(how: Reading, own: Width, x: Span, y: Span, width: Width) -> Option<Reading>
    ensures { result ≡ compared_below how own x y width }
{
    if width.bits() < own.bits() {
        compared_at(how, own, x, y, width)
    } else {
        None
    }
}

// A reading where there is one at a width, else the other.
fn or_compared(found: Option<Reading>, width: Width, other: Compared) -> Compared
    ensures { result ≡ or_compared found width other }
{
    match found {
        Some(reading) => Compared { width, reading },
        None => other,
    }
}

/// The least width in which two numbers with these spans compare as they do at their own by a
/// reading, and the reading there.
pub fn comparison_choice(how: Reading, own: Width, x: Span, y: Span) -> Compared
    ensures { result ≡ comparison_choice how own x y }
{
    let at_8 = compared_below(how, own, x, y, Width::W8);
    let at_16 = compared_below(how, own, x, y, Width::W16);
    let at_32 = compared_below(how, own, x, y, Width::W32);
    let own = Compared {
        width: own,
        reading: how,
    };
    let last = or_compared(at_32, Width::W32, own);
    or_compared(at_8, Width::W8, or_compared(at_16, Width::W16, last))
}
