// What brackets may hold: a query, a condition or an expression, read by what the caller lends.
use lb_tree::{Cond, Expr, Query};

/// What is to be read in a bracket.
#[derive(Clone, Copy)]
pub enum Wanted {
    /// An expression.
    Expr,
    /// A condition.
    Condition,
    /// A condition, or an expression with which one may begin.
    Mixed,
    /// A query.
    Query,
}

/// What was read in a bracket.
#[derive(Drop)]
pub enum Inside {
    /// An expression.
    Expr(Expr),
    /// A condition.
    Condition(Cond),
    /// A query.
    Query(Query),
}

/// What stands in a parenthesis at the head of a condition.
#[derive(Drop)]
pub enum Mixed {
    /// A condition.
    Cond(Cond),
    /// An expression with which a condition may begin.
    Expr(Expr),
}

/// What stands in a parenthesis after a comparison sign.
#[derive(Drop)]
pub enum Side {
    /// A query, whose value is compared.
    Query(Query),
    /// An expression, which may go on after the parenthesis.
    Expr(Expr),
}
