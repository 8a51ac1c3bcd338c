// Values in words of 64 bits, as the frames of the evaluator hold them.
ghost use Rattle.std.specs.Prelude.{◌≡◌, ◌<◌};
ghost use Rattle.values.specs.Packed.{value_of, value_in, packed_limit};

use crate::{function_of, signed, unsigned};
use saiga::{Holding, Value};

// A packed value is a tag, TAG times, and a four-byte form; it is below LIMIT.
const TAG: u64 = 4294967296;

pub const LIMIT: u64 = 68719476736;

// The tags: of the kinds of values, and of functions that hold their first argument. An enum of them would need a match of its own from number to tag.
const UNIT: u64 = 0;

const BOOL: u64 = 1;

const INT: u64 = 2;

const NODE: u64 = 3;

const FUNCTION: u64 = 4;

const LE: u64 = 5;

const EQUAL_INT: u64 = 6;

const EQUAL_NODE: u64 = 7;

const ADD: u64 = 8;

const SUBTRACT: u64 = 9;

// A four-byte form in a word, with its tag.
#[tactic(auto, unfolding(crate::specs::Packed::value_in))]
fn tagged(tag: u64, form: u32) -> u64
    requires { tag < 10 }
    ensures value { value_in result ≡ value_of tag form }
    ensures limit { result < packed_limit }
{
    tag * TAG + u64::from(form)
}

// A value in a word, and back.
#[tactic(auto, using(crate::proofs::Packing::int_back), unfolding(saiga::specs::Values::function_of, crate::specs::Packed::holding_of, crate::specs::Packed::value_of))]
pub fn pack(v: Value) -> u64
    ensures { (value_in result ≡ v) × (result < packed_limit) }
{
    match v {
        Value::Unit => tagged(UNIT, 0),
        Value::Bool(b) => tagged(BOOL, u32::from(b)),
        Value::Int(z) => tagged(INT, unsigned(z)),
        Value::Node(n) => tagged(NODE, u32::from(n)),
        Value::Function(f) => tagged(FUNCTION, f as u32),
        Value::Holding(Holding::Le(y)) => tagged(LE, unsigned(y)),
        Value::Holding(Holding::EqualInt(y)) => tagged(EQUAL_INT, unsigned(y)),
        Value::Holding(Holding::EqualNode(n)) => tagged(EQUAL_NODE, u32::from(n)),
        Value::Holding(Holding::Add(y)) => tagged(ADD, unsigned(y)),
        Value::Holding(Holding::Subtract(y)) => tagged(SUBTRACT, unsigned(y)),
    }
}

#[tactic(auto, unfolding(crate::specs::Packed::holding_of, crate::specs::Packed::value_of, crate::specs::Packed::value_in))]
pub fn unpack(p: u64) -> Value
    ensures { result ≡ value_in p }
{
    let form = (p % TAG) as u32;
    match p / TAG {
        UNIT => Value::Unit,
        BOOL => Value::Bool(form == 1),
        INT => Value::Int(signed(form)),
        NODE => Value::Node((form % 65536) as u16),
        FUNCTION => Value::Function(function_of(form)),
        LE => Value::Holding(Holding::Le(signed(form))),
        EQUAL_INT => Value::Holding(Holding::EqualInt(signed(form))),
        EQUAL_NODE => Value::Holding(Holding::EqualNode((form % 65536) as u16)),
        ADD => Value::Holding(Holding::Add(signed(form))),
        _ => Value::Holding(Holding::Subtract(signed(form))),
    }
}
