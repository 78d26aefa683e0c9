//! The values of a kernel, as lanes are tried with them.

ghost use Rattle.std.specs.Prelude.{◌≡◌, ◌≤◌, [], IfOk, length, map, slice_get};
ghost use Rattle.std.specs.Option.{option_map, option_or};
ghost use Rattle.vg_match.specs.Fit.{fit, fit_turned};
ghost use Rattle.vg_match.specs.Values.{AreSearched, fit_first, fit_whole, terms_by};
ghost use Rattle.vg_match.specs.Table.{count_of};
ghost use Rattle.vg_terms.specs.Term.{tree};

use crate::fit::{fit, fit_turned};
use crate::least::LeastValues;
use std::alloc::{AllocError, Global};
use vg_shapes::Bound;
use vg_terms::Term;

/// The values of a kernel by their terms, their cut terms, and the values by their names. Where there
/// are no cut terms there are no names.
#[derive(Drop)]
pub(crate) struct Values<'a> {
    pub(crate) whole: LeastValues<'a>,
    pub(crate) cuts: &'a [Term],
    pub(crate) named: LeastValues<'a>,
}

impl<'a> Values<'a> {
    /// The values that have these terms, cut terms and names, the first of each having the number 0.
    ///
    /// Fails for want of memory, or where there are more than `2 ^ 24` terms or names.
    pub(crate) fn new(
        alloc: Global,
        terms: &'a [Term],
        cuts: &'a [Term],
        names: &'a [Term],
    ) -> Result<Values<'a>, AllocError>
        requires { length cuts.now ≤ 16777216 }
        ensures sorted { IfOk result (λ values. AreSearched values) }
        ensures few { IfOk result (λ values. count_of (terms_by values) ≤ 16777216) }
        ensures terms { IfOk result (λ values. values.whole.terms.now ≡ terms.now) }
        ensures cuts { IfOk result (λ values. values.cuts.now ≡ cuts.now) }
        ensures names { IfOk result (λ values. values.named.terms.now ≡ names.now) }
    {
        let whole = LeastValues::new(alloc, terms)?;
        let named = LeastValues::new(alloc, names)?;
        Ok(Values { whole, cuts, named })
    }

    /// The term of a value, if there is one.
    pub(crate) fn term(&self, value: u32) -> Option<&Term>
        ensures { option_map (λ t. tree t.now) result
            ≡ slice_get (terms_by self.now).terms value }
    {
        self.whole.terms.get(value as usize)
    }

    /// The cut term of a value, if there is one.
    pub(crate) fn cut(&self, value: u32) -> Option<&Term>
        ensures { option_map (λ t. tree t.now) result ≡ slice_get (terms_by self.now).cuts value }
    {
        self.cuts.get(value as usize)
    }

    /// How many have a term or a cut term.
    pub(crate) fn count(&self) -> usize
        ensures { result ≡ count_of (terms_by self.now) }
    {
        self.whole.terms.len().max(self.cuts.len())
    }

    /// What the leaves of a lane are bound to by the first way in which it fits a value: whole, else
    /// cut, else turned. A value without a cut term is tried whole alone.
    pub(crate) fn fit(
        &self,
        alloc: Global,
        value: u32,
        lane: &Term,
    ) -> Result<Option<Vec<Bound>>, AllocError>
        requires { AreSearched self.now }
        ensures { IfOk result
            (λ found. option_map (λ b. b.items) found
            ≡ fit_first (terms_by self.now) value (tree lane.now)) }
    {
        match self.fit_whole(alloc, value, lane)? {
            Some(bound) => Ok(Some(bound)),
            None => match self.cut(value) {
                Some(cut) => self.fit_cut(alloc, value, lane, cut),
                None => Ok(None),
            },
        }
    }

    // The same where it fits the term of the value.
    fn fit_whole(
        &self,
        alloc: Global,
        value: u32,
        lane: &Term,
    ) -> Result<Option<Vec<Bound>>, AllocError>
        requires { AreSearched self.now }
        ensures { IfOk result
            (λ found. option_map (λ b. b.items) found
            ≡ fit_whole (terms_by self.now) value (tree lane.now)) }
    {
        match self.term(value) {
            Some(term) => fit(&self.whole, value, lane, term, Vec::new(alloc)),
            None => Ok(None),
        }
    }

    // The same where it fits this cut term of the value, else where it fits that term turned.
    fn fit_cut(
        &self,
        alloc: Global,
        value: u32,
        lane: &Term,
        cut: &Term,
    ) -> Result<Option<Vec<Bound>>, AllocError>
        requires { AreSearched self.now }
        ensures { IfOk result
            (λ found. option_map (λ b. b.items) found
            ≡ option_or (fit (terms_by self.now).names value (tree lane.now) (tree cut.now) [])
            (fit_turned (terms_by self.now).names value (tree lane.now) (tree cut.now) [])) }
    {
        match fit(&self.named, value, lane, cut, Vec::new(alloc))? {
            Some(bound) => Ok(Some(bound)),
            None => fit_turned(&self.named, value, lane, cut, Vec::new(alloc)),
        }
    }
}
