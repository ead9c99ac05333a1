//! What is asked of a view, beside its gates.
ghost use Rattle.std.specs.Prelude.{◌≡◌, map};

use std::marker::Model;

/// Node numbers, in any order.
#[derive(Drop)]
pub struct NodeList {
    nodes: Vec<u32>,
}

impl Model for NodeList {
    ghost use Rattle.std.specs.Prelude.{ℕ, List};

    ghost Value = { List ℕ };

    ghost view = { λ l. l.nodes.items };
}

impl NodeList {
    /// The numbers of a vector, none of them copied.
    pub fn new(nodes: Vec<u32>) -> NodeList
        ensures { result ≡ nodes.items }
    {
        NodeList { nodes }
    }

    pub fn as_slice(&self) -> &[u32]
        ensures { result.now ≡ self.now }
    {
        self.nodes.as_slice()
    }
}

/// Clauses, each a list of literals: n for variable n, -n for its negation.
#[derive(Drop)]
pub struct ClauseList {
    clauses: Vec<Vec<i32>>,
}

impl Model for ClauseList {
    ghost use Rattle.std.specs.Prelude.{List, ℤ, map};

    ghost Value = { List (List ℤ) };

    ghost view = { λ l. map (λ c. c.items) l.clauses.items };
}

impl ClauseList {
    /// The clauses of a vector, none of them copied.
    pub fn new(clauses: Vec<Vec<i32>>) -> ClauseList
        ensures { result ≡ map (λ c. c.items) clauses.items }
    {
        ClauseList { clauses }
    }

    pub fn as_slice(&self) -> &[Vec<i32>]
        ensures { map (λ c. c.items) result.now ≡ self.now }
    {
        self.clauses.as_slice()
    }
}

/// A question about a view's states.
#[derive(Drop)]
pub struct Question {
    /// Source nodes that are never X.
    pub fixed: NodeList,
    /// The number of variables behind the rails.
    pub extra: u32,
    /// Further clauses, over the rails and the variables behind them.
    pub side: ClauseList,
}
