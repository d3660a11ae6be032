#![tactic(auto)]

// Theory only: job and answer frames, the questions put to them and what the services say stand in specs/.
