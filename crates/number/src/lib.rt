#![tactic(auto)]

// Theory only: the layout of numbers stands in specs/.
