/// The limits of scripts, in the order in which they are judged (own). `resolve` answers `Literal`, and `Nodes` to `Letters`.
#[derive(Clone, Copy, PartialEq, Eq, Debug)]
pub enum Which {
    StatementBytes,
    ScriptBytes,
    Nesting,
    Literal,
    LoopVariables,
    Sets,
    Nodes,
    Depth,
    Coefficient,
    Constant,
    Letters,
    Denominator,
    KeptCells,
}
