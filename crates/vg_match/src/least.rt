//! The least value that has a term.

ghost use Rattle.std.specs.Prelude.{◌≡◌, ◌≤◌, IfOk, find, length, map};
ghost use Rattle.std.specs.Option.{option_map};
ghost use Rattle.vg_match.specs.Least.{AreByTerm, AreSorted, has_term, is_before, least_with, numbered, pair_of};
ghost use Rattle.std.specs.List.Sorted.{IsSortedBy};
ghost use Rattle.vg_terms.specs.Term.{tree};

use std::alloc::{AllocError, Global};
use vg_terms::Term;

/// A value and its term.
#[derive(Clone, Copy)]
struct ValueTerm<'a> {
    term: &'a Term,
    value: u32,
}

/// The values of a kernel by their terms.
#[derive(Drop)]
pub(crate) struct LeastValues<'a> {
    /// By value.
    pub(crate) terms: &'a [Term],
    sorted: Vec<ValueTerm<'a>>,
}

impl<'a> LeastValues<'a> {
    /// The values that have these terms, the first having the number 0.
    ///
    /// Fails for want of memory, or where there are more than `2 ^ 24`.
    pub(crate) fn new(alloc: Global, terms: &'a [Term]) -> Result<LeastValues<'a>, AllocError>
        ensures sorted { IfOk result (λ values. AreByTerm values) }
        ensures terms { IfOk result (λ values. values.terms.now ≡ terms.now) }
        ensures few { IfOk result (λ values. length terms.now ≤ 16777216) }
    {
        if terms.len() > crate::MOST_NODES {
            return Err(AllocError);
        }
        let sorted = sorted_values(alloc, terms)?;
        Ok(LeastValues { terms, sorted })
    }

    /// The least value that has a term. Takes no memory.
    pub(crate) fn with(&self, t: &Term) -> Option<u32>
        requires { AreByTerm self.now }
        ensures { result ≡ least_with (map tree self.now.terms.now) (tree t.now) }
    {
        first_with(self.sorted.as_slice(), t)
    }
}

// The values that have these terms, by number.
fn number_terms<'a>(alloc: Global, terms: &'a [Term]) -> Result<Vec<ValueTerm<'a>>, AllocError>
    requires { length terms.now ≤ 16777216 }
    ensures { IfOk result (λ values. map pair_of values.items ≡ numbered 0 (map tree terms.now)) }
{
    let mut values = Vec::new(alloc);
    for (value, term) in terms.iter().enumerate() {
        values.push(ValueTerm {
            term,
            value: value as u32,
        })?;
    }
    Ok(values)
}

// The same by their terms.
fn sorted_values<'a>(alloc: Global, terms: &'a [Term]) -> Result<Vec<ValueTerm<'a>>, AllocError>
    requires { length terms.now ≤ 16777216 }
    ensures { IfOk result (λ sorted. AreSorted (map tree terms.now) sorted.items) }
{
    let mut values = number_terms(alloc, terms)?;
    values.sort_by(|a, b| a.term.key_cmp(b.term))?;
    Ok(values)
}

// The first value that has a term, of values sorted by their terms.
fn first_with(sorted: &[ValueTerm<'_>], t: &Term) -> Option<u32>
    requires { IsSortedBy is_before sorted.now }
    ensures { result ≡ option_map (λ x. x.value) (find (has_term (tree t.now)) sorted.now) }
{
    let place = sorted.partition_point(|x| x.term.key_cmp(t).is_lt());
    match sorted.get(place) {
        Some(found) => {
            if found.term.is_same(t) {
                Some(found.value)
            } else {
                None
            }
        }
        None => None,
    }
}
