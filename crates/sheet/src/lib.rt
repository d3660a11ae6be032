#![tactic(auto)]

// Theory only: step sheets, their layout, their reader and their laws stand in specs/.
