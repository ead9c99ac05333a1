//! What is declared of a net: domains, and the problems of its flops.

use rdc_outside::Seq;

/// A declared reset, and the flops that it can reset.
#[derive(Debug, Drop)]
pub struct DomainOf {
    pub reset: u32,
    /// The flops whose pins read the reset, or read a flop of the domain; ascending.
    pub flops: Seq<u32>,
}

/// What structure alone says of a problem.
#[derive(Clone, Copy, Debug, PartialEq, Eq)]
pub enum Mark {
    /// The data of the flop crosses from no other reset.
    Same,
    /// The source that calms is the pin itself, and makes it active.
    Direct,
    /// Neither.
    Asked,
}

/// The edge problem of a flop, or its calm problem by a source.
#[derive(Debug, Drop)]
pub struct Marked {
    pub flop: u32,
    /// The source that calms; None for an edge.
    pub by: Option<u32>,
    pub mark: Mark,
}
