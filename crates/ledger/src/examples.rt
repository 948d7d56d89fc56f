// Examples at the edges of the rules, as theorems.
ghost use Rattle.ledger.specs.Examples.{EdgeExamples};

// The theorem that compact sizes, subsidies and a cache's spill come out at their edges as the examples say.
pub fn edge_examples()
    ensures { EdgeExamples }
{}
