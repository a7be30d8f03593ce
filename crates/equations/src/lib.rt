// Equations over the definitions, with the answers of the separate build; the prover computes them.
#![tactic(auto)]
