#![tactic(auto)]

// Packet logs over a job: definitions, model and theorems are in specs/.
