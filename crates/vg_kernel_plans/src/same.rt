//! Whether two packs or operands are the same.

ghost use Rattle.std.specs.Prelude.{◌≡◌};
ghost use Rattle.std.specs.Cmp.Lexicographic.{pointwise};
ghost use Rattle.vg_kernel_plans.specs.SameAs.{same_operand, same_pack, same_slot};

use vg_shapes::{Operand, Pack, Slot};

/// Whether two slots stand at the same place and want the same.
pub fn is_same_slot(a: &Slot, b: &Slot) -> bool
    ensures { result ≡ same_slot a.now b.now }
{
    a == b
}

/// Whether two operands have registers of one width and the same slots.
pub fn is_same_operand(a: &Operand, b: &Operand) -> bool
    ensures { result ≡ same_operand a.now b.now }
{
    a.register == b.register && a.slots.as_slice() == b.slots.as_slice()
}

/// Whether two packs have the same units in the same lanes and are done by the same line.
pub fn is_same_pack(a: &Pack, b: &Pack) -> bool
    ensures { result ≡ same_pack a.now b.now }
{
    match (a, b) {
        (Pack::Stores(us), Pack::Stores(vs)) => us.as_slice() == vs.as_slice(),
        (Pack::Loads(us), Pack::Loads(vs)) => us.as_slice() == vs.as_slice(),
        (
            Pack::Call {
                description: d,
                lanes: l,
            },
            Pack::Call {
                description: e,
                lanes: m,
            },
        ) => *d == *e && l.as_slice() == m.as_slice(),
        (Pack::Stores(_), _) => false,
        (Pack::Loads(_), _) => false,
        (Pack::Call { .. }, _) => false,
    }
}
