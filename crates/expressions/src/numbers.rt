// Types as numbers (specs/TypeNumbers.antt): 1 Unit, 2 Bool, 3 Int, 4 Node, and from 5 on those of functions; 0 stands for no type. They are for a caller
// that has types of any nesting as numbers: what is inferred from those of the parts is worked out on them. The reader of expressions has the enum of
// types.rt.
ghost use Rattle.std.specs.Prelude.{◌≡◌, ℕ, ◌+◌, ◌*◌, ◌≤◌, ◌<◌, length, Option};
ghost use Rattle.saiga.specs.Values.{base_code, base_of, Ty, function_of, function_type};
ghost use Rattle.saiga.specs.Types.{attribute_at, infer_if, infer_application};
ghost use Rattle.values.specs.Layout.{attributes_in};
ghost use Rattle.expressions.specs.Types.{infer_attribute};
ghost use Rattle.expressions.specs.TypeNumbers.{type_number, inferred_number};

use saiga::{Base, Function};

// The number of the base type with this code.
pub fn base_number(code: u8) -> u32
    ensures { result ≡ base_code (base_of code) + 1 }
{
    match values::base_of(code) {
        Base::Unit => 1,
        Base::Bool => 2,
        Base::Int => 3,
        Base::Node => 4,
    }
}

// The number of the type of the function with this code.
#[tactic(auto, unfolding(crate::specs::TypeNumbers::type_number, saiga::specs::Values::function_type))]
pub fn function_number(code: u8) -> u32
    ensures { result ≡ type_number (function_type (function_of code)) }
{
    match values::function_of(u32::from(code)) {
        Function::Le | Function::EqualInt => 47,
        Function::EqualNode => 52,
        Function::Not => 10,
        Function::Add | Function::Subtract => 63,
    }
}

// IF: the condition is a Bool, and the branches have one type.
#[tactic(auto, using(crate::proofs::TypeNumbers::number_laws))]
pub fn if_number(c: u32, t: u32, e: u32) -> u32
    ensures { (C T E : Option Ty) → c ≡ inferred_number C → t ≡ inferred_number T → e ≡ inferred_number E
        → result ≡ inferred_number (infer_if C T E) }
{
    if c != 2 {
        return 0;
    }
    if t == e { t } else { 0 }
}

// Application of f to x: the type of f is p ⇒ r and that of x is p.
#[tactic(auto, using(crate::proofs::TypeNumbers::number_laws))]
pub fn application_number(f: u32, x: u32) -> u32
    ensures { (F X : Option Ty) → f ≡ inferred_number F → x ≡ inferred_number X
        → result ≡ inferred_number (infer_application F X) }
{
    if f < 5 {
        return 0;
    }
    if (f - 1) % 4 + 1 == x { (f - 1) / 4 } else { 0 }
}

// Attribute a of a node, with parameter x: the type bytes stand in the attribute's command.
#[tactic(auto, using(crate::proofs::TypeNumbers::number_laws))]
pub fn attribute_number(types: &[u8], a: usize, n: u32, x: u32) -> u32
    requires { 3 * a + 3 ≤ length types.now }
    ensures { (attributes : ℕ) (N X : Option Ty) → a < attributes → n ≡ inferred_number N → x ≡ inferred_number X
        → result ≡ inferred_number (infer_attribute (attribute_at (attributes_in types.now attributes) a) N X) }
{
    if n != 4 {
        return 0;
    }
    if x == base_number(values::parameter_at(types, a)) {
        base_number(values::result_at(types, a))
    } else {
        0
    }
}
