// The types that the engine's code and the definitions of specs/ share: the values of document 01, "Values and functions", and the numbers of
// an entry.
#![tactic(auto)]

pub mod limits;
pub mod stops;

// The base types by their codes 0 to 3.
#[derive(Clone, Copy, PartialEq, Eq)]
pub enum Base {
    Unit,
    Bool,
    Int,
    Node,
}

// The functions by their codes 0 to 5.
#[derive(Clone, Copy)]
pub enum Function {
    Le,
    EqualInt,
    EqualNode,
    Not,
    Add,
    Subtract,
}

// A function of two arguments that holds its first.
#[derive(Clone, Copy)]
pub enum Holding {
    Le(i32),
    EqualInt(i32),
    EqualNode(u16),
    Add(i32),
    Subtract(i32),
}

// The number that stands for null among Node values.
pub const NULL: u16 = 65535;

// A Node is its declared number, or null.
#[derive(Clone, Copy)]
pub enum Value {
    Unit,
    Bool(bool),
    Int(i32),
    Node(u16),
    Function(Function),
    Holding(Holding),
}

// An entry of the store in numbers: its parameter and its value in their four-byte forms, and the code of the value's type.
#[derive(Clone, Copy)]
pub struct Fields {
    pub node: u16,
    pub attribute: u8,
    pub code: u8,
    pub parameter: u32,
    pub value: u32,
}
