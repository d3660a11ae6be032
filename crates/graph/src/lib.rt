#![tactic(auto)]

// Theory only: graphs, spanning trees and the minimum-spanning-tree criterion stand in specs/.
