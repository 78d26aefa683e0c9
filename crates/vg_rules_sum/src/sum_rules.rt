//! The rules for sums as a table.

ghost use Rattle.vg_rules_sum.specs.Rules.{first_row};
ghost use Rattle.vg_rules_sum.specs.Laws.{first_row-sound};

use crate::rows::*;
use std::alloc::{AllocError, Global};
use vg_terms::{Rule, Term, first_row, some_row};

/// The rules for sums. A row is tried where none above it applies:
///
/// 1. `fold_constants`: a term over constants alone is its value;
/// 2. `sort_chain`: a chain is nested to the left over its parts in rising order, and of the two sides of
///    an equality the lesser comes first;
/// 3. `merge_constants`: two constants in one chain are one, the operation on the two;
/// 4. `neutral_or_absorbing`: a neutral constant leaves the term beside it, and one that absorbs itself;
/// 5. `same_operands`: one term twice is that term, or 0 under exclusive or.
///
/// Chains are terms of one operation and width whose order and grouping do not matter: sums, products,
/// bitwise operations, least and greatest.
#[derive(Clone, Copy)]
pub struct SumRules;

// The rows in their order: the test of each, and what it makes of a term.
macro_rules! table {
    ($use_of:ident $arguments:tt) => {
        $use_of! { $arguments
            is_fold_constants => fold_constants,
            is_sort_chain => sort_chain,
            is_merge_constants => merge_constants,
            is_neutral_or_absorbing => neutral_or_absorbing,
            is_same_operands => same_operands,
        }
    };
}

impl Rule for SumRules {
    ghost first_row = { λ _. first_row };

    fn applies(&self, t: &Term) -> bool {
        table!(some_row(t))
    }

    fn apply(&self, alloc: Global, t: Term) -> Result<Term, AllocError> {
        table!(first_row(alloc, t))
    }

    ghost keeps = { λ _ old new f e. (first_row-sound old new f e).keeps };

    ghost falls = { λ _ old new f e. (first_row-sound old new f e).falls };
}
