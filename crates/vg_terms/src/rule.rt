//! What a rule that rewrites terms promises.

ghost use Rattle.std.specs.Prelude.{◌≡◌, IfOk, IsSome, Option, Some, is_some};
ghost use Rattle.vg_terms.specs.Measure.{Falls};
ghost use Rattle.vg_terms.specs.Rule.{Keeps};
ghost use Rattle.vg_terms.specs.Term.{Tree, WellFormed, tree};

use crate::term::Term;
use std::alloc::{AllocError, Global};

/// A table of rows that rewrite a term at its root. Where a row applies, the result is well-formed,
/// has the width of the term and its value in every environment, and a lesser measure: less weight,
/// or the same weight and less disorder.
pub trait Rule {
    /// What the first row that applies makes of a term.
    ghost first_row: { Self → Tree → Option Tree };

    /// Whether a row applies to the term. Takes no memory.
    fn applies(&self, t: &Term) -> bool
        requires { WellFormed (tree t.now) }
        ensures { result ≡ is_some (first_row self.now (tree t.now)) };

    /// The result of the first row that applies.
    fn apply(&self, alloc: Global, t: Term) -> Result<Term, AllocError>
        requires well_formed { WellFormed (tree t) }
        requires some_row { IsSome (first_row self.now (tree t)) }
        ensures { IfOk result (λ new. first_row self.now (tree t) ≡ Some (tree new)) };

    ghost keeps: { (rule : Self) (old new : Tree) → WellFormed old → first_row rule old ≡ Some new → Keeps old new };

    ghost falls: { (rule : Self) (old new : Tree) → WellFormed old → first_row rule old ≡ Some new → Falls old new };
}

/// Whether some row of a table applies to a term. A table is a list of `test => row`, each the name of a
/// function; the crate that has the rows opens it by this macro and the next, so that a row stands once.
#[macro_export]
macro_rules! some_row {
    (($t:expr) $($test:ident => $row:ident,)*) => { $(if $test($t) { true } else)* { false } };
}

/// What the first row of such a table whose test holds makes of the term.
#[macro_export]
macro_rules! first_row {
    (($alloc:expr, $t:expr) $($test:ident => $row:ident,)*) => {
        $(if $test(&$t) { $row($alloc, $t) } else)* { Ok($t) }
    };
}
