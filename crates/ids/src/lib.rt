// Numbers of different kinds, each with a type of its own: none is taken for another.
#![tactic(auto)]

// A station's number.
#[derive(Clone, Copy)]
pub struct Node(pub u32);

// A link's number.
#[derive(Clone, Copy)]
pub struct Edge(pub u32);

// The rank of a tree edge: its place by falling cost.
#[derive(Clone, Copy)]
pub struct TreeRank(pub u32);

// The rank of a non-tree edge: its place by rising cost.
#[derive(Clone, Copy)]
pub struct SpareRank(pub u32);

// The place of a pair among the pairs found so far.
#[derive(Clone, Copy)]
pub struct Slot(pub u32);
