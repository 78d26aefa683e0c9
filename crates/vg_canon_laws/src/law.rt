//! What a canonical form keeps of its term beyond width and value.

ghost use Rattle.vg_canon_laws.specs.Leaves.{CanonicalFormsKeepLeaves};

/// Each leaf of the canonical form of a term is a leaf of the term, with its width and its key.
pub fn canonical_forms_keep_leaves()
    ensures { CanonicalFormsKeepLeaves }
{}
