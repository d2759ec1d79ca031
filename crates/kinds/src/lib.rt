// The six kinds of number that the Rust's `new_idx!` keeps apart: each is a plain number in a type of its own,
// so that a node is never taken for a net, nor a wire for a port.
#![tactic(auto)]

#[derive(Clone, Copy, PartialEq, Eq)]
pub struct NodeId(pub u32);

#[derive(Clone, Copy, PartialEq, Eq)]
pub struct NetId(pub u32);

// A port of a node: 0 is the principal one.
#[derive(Clone, Copy, PartialEq, Eq)]
pub struct PortIndex(pub u32);

#[derive(Clone, Copy, PartialEq, Eq)]
pub struct Wire(pub u32);

// The number of a name in the name table.
#[derive(Clone, Copy, PartialEq, Eq)]
pub struct NameId(pub u32);

// The number of a path in the path table.
#[derive(Clone, Copy, PartialEq, Eq)]
pub struct PathId(pub u32);
