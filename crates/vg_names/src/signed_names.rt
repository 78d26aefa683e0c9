//! Which expressions are read as signed, by what is known of names.

ghost use Rattle.std.specs.Prelude.{◌≡◌, ◌&&◌, map};
ghost use Rattle.std.specs.List.{list_any};
ghost use Rattle.std.specs.Str.{bytes_eq};
ghost use Rattle.vg_pseudo.specs.Signs.{is_signed, is_signed_register};
ghost use Rattle.vg_pseudo.specs.Tree.{expression_of};
ghost use Rattle.vg_names.specs.Gathered.{signs_of, whole_of};
ghost use Rattle.vg_names.specs.Registers.{register_view};

use crate::assignments::has_name;
use crate::names::Names;
use crate::registers::Register;
use crate::signs::{gives_signed, joins_signs, keeps_sign};
use vg_pseudo::Expr;
use vg_text::byte::is_text;

/// What is known of the names of a body.
#[derive(Clone, Copy)]
pub(crate) struct SignedNames<'a, 'f> {
    /// The registers that are given, those at least of which some bits are signed.
    pub(crate) given: &'a [&'a Register],
    pub(crate) locals: &'a Names,
    /// For each local whether it is known to be signed.
    pub(crate) flags: &'f [bool],
}

/// Whether a register of this name has signed slices.
fn signed_slices(given: &[&Register], name: &[u8]) -> bool
    ensures { result ≡ is_signed_register (λ r. r.signed_slices) (map (λ r. register_view r.now)
        given.now) name.now }
{
    is_any_signed_slices(given, name)
}

fn is_any_signed_slices(given: &[&Register], name: &[u8]) -> bool
    ensures { result ≡ list_any (λ r. bytes_eq r.now.name name.now && r.now.signed_slices)
        given.now }
{
    given.iter().any(|register| is_text(register.name.bytes(), name) && register.signed_slices)
}

/// Whether a register of this name is signed as a whole.
fn signed_whole(given: &[&Register], name: &[u8]) -> bool
    ensures { result ≡ is_signed_register (λ r. r.signed_whole) (map (λ r. register_view r.now)
        given.now) name.now }
{
    is_any_signed_whole(given, name)
}

fn is_any_signed_whole(given: &[&Register], name: &[u8]) -> bool
    ensures { result ≡ list_any (λ r. bytes_eq r.now.name name.now && r.now.signed_whole)
        given.now }
{
    given.iter().any(|register| is_text(register.name.bytes(), name) && register.signed_whole)
}

impl<'a, 'f> SignedNames<'a, 'f> {
    /// Whether the slices and elements of a name are signed.
    fn slices(&self, name: &[u8]) -> bool
        ensures { result ≡ is_signed_register (λ r. r.signed_slices) (map (λ r. register_view r.now)
            self.now.given.now) name.now }
    {
        signed_slices(self.given, name)
    }

    /// Whether its bare name is.
    fn whole(&self, name: &[u8]) -> bool
        ensures { result ≡ whole_of (map (λ r. register_view r.now) self.now.given.now)
            self.now.locals.now self.now.flags.now name.now }
    {
        match self.locals.place(name) {
            Some(local) => self.flags.get(local).copied().unwrap_or(false),
            None => signed_whole(self.given, name),
        }
    }

    /// Whether an expression is signed inside FORs over these variables.
    pub(crate) fn is_signed(&self, turns: &[&[u8]], expr: &Expr) -> bool
        ensures { result ≡ is_signed (signs_of (map (λ r. register_view r.now) self.now.given.now)
            self.now.locals.now self.now.flags.now) (map (λ t. t.now) turns.now) (expression_of
            expr.now) }
    {
        match expr {
            Expr::Number { .. } => false,
            Expr::Name { name, .. } => !has_name(turns, name.bytes()) & self.whole(name.bytes()),
            Expr::Slice { name, .. } => !has_name(turns, name.bytes()) & self.slices(name.bytes()),
            Expr::Bit { .. } => false,
            Expr::Element { name, .. } => {
                !has_name(turns, name.bytes()) & self.slices(name.bytes())
            }
            Expr::Part { name, .. } => !has_name(turns, name.bytes()) & self.whole(name.bytes()),
            Expr::Unary { op, operand, .. } => {
                gives_signed(*op) | (keeps_sign(*op) & self.is_signed(turns, operand))
            }
            Expr::Binary {
                op,
                left,
                right,
                ..
            } => joins_signs(*op) & (self.is_signed(turns, left) | self.is_signed(turns, right)),
            Expr::Choice { first, second, .. } => {
                self.is_signed(turns, first) | self.is_signed(turns, second)
            }
            Expr::Call { .. } => false,
        }
    }
}
