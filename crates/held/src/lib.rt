// Theory only: when a job stands in arrays, and what follows of it, stand in specs/.
#![tactic(auto)]
