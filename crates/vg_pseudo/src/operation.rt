//! Operations.

use crate::expression::Expr;
use crate::statement::Stmt;
use vg_base::{Items, Name};

/// A parameter of a DEFINE: `name`, or `name[high:0]`.
#[derive(Drop)]
pub struct DefineParam {
    pub name: Name,
    /// The number of its highest bit, below 2^127, where one is written.
    pub high: Option<u128>,
}

/// `DEFINE name(params) { body RETURN answer }`
pub struct Define {
    pub name: Name,
    /// At least one.
    pub params: Items<DefineParam>,
    pub body: Stmt,
    pub answer: Expr,
}

/// Written out, so that the exits of an owner call it: a derived one would be proved anew at each.
impl Drop for Define {
    fn drop(self) {
        let Define {
            name: _,
            params: _,
            body: _,
            answer: _,
        } = self;
    }
}

/// An operation: its DEFINEs in their order, and its statements.
pub struct Operation {
    pub defines: Items<Define>,
    pub body: Stmt,
}

/// Written out, so that the exits of an owner call it: a derived one would be proved anew at each.
impl Drop for Operation {
    fn drop(self) {
        let Operation {
            defines: _,
            body: _,
        } = self;
    }
}
