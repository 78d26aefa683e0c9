//! Matches as text.

use std::alloc::{AllocError, Global};
use vg_shapes::{Bound, Match, Wanted};

/// A bound leaf: its parameter, its lowest bit, and the value or the constant.
fn bound(alloc: Global, b: &Bound) -> Result<String, AllocError> {
    let parameter = b.key.first;
    let low = b.key.second;
    match b.wanted {
        Wanted::Value(value) => format!(in alloc; " {parameter}.{low}=v{value}"),
        Wanted::Constant { width, value } => {
            format!(in alloc; " {parameter}.{low}={value}i{width}")
        }
        Wanted::Nothing => format!(in alloc; " {parameter}.{low}=none"),
    }
}

/// A line a match: its description, lane and value, and what its leaves are bound to.
pub fn shown(alloc: Global, matches: &[Match]) -> Result<String, AllocError> {
    let mut text = String::new(alloc);
    for m in matches {
        let description = m.description;
        let lane = m.lane;
        let value = m.value;
        let start = format!(in alloc; "{description}.{lane} v{value}")?;
        text.push_str(start.as_str())?;
        for b in m.bound.as_slice() {
            let leaf = bound(alloc, b)?;
            text.push_str(leaf.as_str())?;
        }
        text.push_str("\n")?;
    }
    Ok(text)
}
