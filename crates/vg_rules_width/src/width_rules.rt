//! The table of the width rules.

ghost use Rattle.vg_rules_width.specs.Laws.{first_row-sound};
ghost use Rattle.vg_rules_width.specs.Rules.{first_row};

use crate::narrowing::{
    is_narrow_extended_sum, is_narrow_product, is_sign_of_nonnegative, narrow_extended_sum,
    narrow_product, sign_of_nonnegative,
};
use crate::pairs::{is_part_of_concatenation, is_zero_on_top, part_of_concatenation, zero_on_top};
use crate::shifts::{
    extend_extend, is_extend_extend, is_shift_by_zero, is_shift_of_extension, is_shift_of_shift,
    shift_by_zero, shift_of_extension, shift_of_shift,
};
use crate::truncations::{
    is_truncate_arithmetic_shift, is_truncate_extension, is_truncate_logical_shift,
    is_truncate_operation, is_truncate_selection, is_truncate_truncate, truncate_arithmetic_shift,
    truncate_extension, truncate_logical_shift, truncate_operation, truncate_selection,
    truncate_truncate,
};
use std::alloc::{AllocError, Global};
use vg_terms::{Rule, Term, first_row, some_row};

/// The rules for widths, in the order of this table: the first row that applies is taken.
///
/// Truncations move towards the leaves, extensions and shifts of one another become one, products and
/// extended sums are made as narrow as the known widths of their operands allow, and pairs that are cut
/// or shifted lose the part that does not count.
#[derive(Clone, Copy)]
pub struct WidthRules;

// The rows in their order: the test of each, and what it makes of a term.
macro_rules! table {
    ($use_of:ident $arguments:tt) => {
        $use_of! { $arguments
            // A truncation of a truncation is one truncation.
            is_truncate_truncate => truncate_truncate,
            // A truncation of an extension is low bits of what is extended, or an extension to fewer bits.
            is_truncate_extension => truncate_extension,
            // An extension of an extension is one extension, by zeros where the inner one is.
            is_extend_extend => extend_extend,
            // Low bits of a sum, a product or a bitwise operation come from low bits.
            is_truncate_operation => truncate_operation,
            // A truncation of a selection is the selection of truncations.
            is_truncate_selection => truncate_selection,
            // Bits below the sign that a shift with sign has moved are those of the shift without.
            is_truncate_arithmetic_shift => truncate_arithmetic_shift,
            // Of a term whose top bits are cut off after a shift only the bits below are shifted.
            is_truncate_logical_shift => truncate_logical_shift,
            // A shift by 0 is the term below.
            is_shift_by_zero => shift_by_zero,
            // A shift of an extension is the extension of a shift; of zeros alone it is 0.
            is_shift_of_extension => shift_of_extension,
            // A shift of a shift is one shift by the sum; at or past the width 0 is left, or the sign.
            is_shift_of_shift => shift_of_shift,
            // A product whose number needs fewer bits is the extension of a product in those.
            is_narrow_product => narrow_product,
            // An extension of a sum whose number needs fewer bits is one of a sum in those.
            is_narrow_extended_sum => narrow_extended_sum,
            // An extension by the sign of a number that is not negative is one by zeros.
            is_sign_of_nonnegative => sign_of_nonnegative,
            // Low bits of a pair come from its lower part first; a shift past that moves the upper alone.
            is_part_of_concatenation => part_of_concatenation,
            // 0 above a term is its extension by zeros.
            is_zero_on_top => zero_on_top,
        }
    };
}

impl Rule for WidthRules {
    ghost first_row = { λ _. first_row };

    #[tactic(auto, unfolding(crate::specs::Rules::first_row))]
    fn applies(&self, t: &Term) -> bool {
        table!(some_row(t))
    }

    #[tactic(auto, unfolding(crate::specs::Rules::first_row))]
    fn apply(&self, alloc: Global, t: Term) -> Result<Term, AllocError> {
        table!(first_row(alloc, t))
    }

    ghost keeps = { λ _ old new f e. (first_row-sound old new f e).keeps };

    ghost falls = { λ _ old new f e. (first_row-sound old new f e).falls };
}
