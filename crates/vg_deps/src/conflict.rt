//! Accesses that may share bytes.

ghost use Rattle.std.specs.Prelude.{◌≡◌, ◌+ℤ◌, int_lt, pos};
ghost use Rattle.vg_deps.specs.Rows.{depends_by};
ghost use Rattle.vg_shapes.specs.Depends.{conflict, conflict_of, may_share, overlap};
ghost use Rattle.vg_shapes.specs.Layout.{is_noalias};

use vg_shapes::{Access, SsaUnit};

// Whether the pointer of an access is noalias, by the flags of all pointers in order.
fn is_noalias(flags: &[bool], x: Access) -> bool
    ensures { result ≡ is_noalias flags.now x }
{
    flags
        .get(x.address.pointer as usize)
        .copied()
        .unwrap_or(false)
}

// Whether an access through a pointer begins before another through that pointer ends.
fn begins_before(x: Access, y: Access) -> bool
    ensures { result ≡ int_lt x.address.offset (y.address.offset +ℤ pos y.size) }
{
    let end = y.address.offset as i64 + y.size as i64;
    (x.address.offset as i64) < end
}

// Whether two accesses through one pointer share a byte.
fn overlap(x: Access, y: Access) -> bool
    ensures { result ≡ overlap x y }
{
    begins_before(x, y) && begins_before(y, x)
}

fn may_share(flags: &[bool], x: Access, y: Access) -> bool
    ensures { result ≡ may_share flags.now x y }
{
    if x.address.pointer == y.address.pointer {
        overlap(x, y)
    } else {
        !(is_noalias(flags, x) || is_noalias(flags, y))
    }
}

fn conflict(flags: &[bool], x: Access, y: Access) -> bool
    ensures { result ≡ conflict flags.now x y }
{
    (x.writes || y.writes) && may_share(flags, x, y)
}

fn conflict_of(flags: &[bool], x: Option<Access>, y: Option<Access>) -> bool
    ensures { result ≡ conflict_of flags.now x y }
{
    match (x, y) {
        (Some(x), Some(y)) => conflict(flags, x, y),
        (Some(_), None) => false,
        (None, _) => false,
    }
}

/// Whether a unit depends on an earlier one of this number: it uses its value, or both are accesses, one
/// of them writes, and they may share a byte. The flags say of each pointer whether it is noalias.
pub(crate) fn depends_by(flags: &[bool], later: &SsaUnit, earlier: &SsaUnit, number: u32) -> bool
    ensures { result ≡ depends_by flags.now later.now earlier.now number }
{
    later.uses(number) || conflict_of(flags, earlier.access(), later.access())
}
