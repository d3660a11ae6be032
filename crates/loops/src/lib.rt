#![tactic(auto)]

// Theory only: what loops compute stands in specs/.
