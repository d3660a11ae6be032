// Theory only: what the services on lists of links promise, and of a lent list too, stands in specs/.
#![tactic(auto)]
