//! A part with its size.

use design_form::Extent;
use vlog_tree::Expr;

/// A part of an expression.
#[derive(Clone, Copy)]
pub struct Sizing<'a> {
    pub expr: &'a Expr,
    /// The width and the sign in which it stands.
    pub size: Extent,
    /// Whether no name stands in it.
    pub constant: bool,
    /// Whether it stands in an expression in which no name stands.
    pub inside: bool,
}
