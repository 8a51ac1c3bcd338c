// The types that expressions have, and what is inferred from those of the parts (crate saiga, Types.antt).
ghost use Rattle.std.specs.Prelude.{◌≡◌, ◌<◌};
ghost use Rattle.saiga.specs.Values.{base, base_of, function_of, function_type};
ghost use Rattle.saiga.specs.Types.{attribute_at, given, infer_if, infer_application};
ghost use Rattle.values.specs.Layout.{attributes_in};
ghost use Rattle.expressions.specs.Types.{ty_of, typed, base_type_in, parted, parts_of, infer_attribute};

use saiga::Base;
use values::Declared;

// The base types, and the types of the six functions, alone and given their first argument: no expression has another. So a type is one byte; where it
// was made of others, each was passed on by itself, and reading took longer.
#[derive(Clone, Copy, PartialEq, Eq)]
pub enum Type {
    Unit,
    Bool,
    Int,
    Node,
    BoolToBool,
    IntToBool,
    NodeToBool,
    IntToInt,
    IntsToBool,
    NodesToBool,
    IntsToInt,
}

impl From<Base> for Type {
    ghost from_gives = { λ b t. ty_of t ≡ base b };

    fn from(base: Base) -> Type {
        match base {
            Base::Unit => Type::Unit,
            Base::Bool => Type::Bool,
            Base::Int => Type::Int,
            Base::Node => Type::Node,
        }
    }
}

impl Type {
    // The parameter's type and the result's, if this is the type of a function.
    fn parts(self) -> Option<(Type, Type)>
        ensures { parted result ≡ parts_of (ty_of self) }
    {
        match self {
            Type::BoolToBool => Some((Type::Bool, Type::Bool)),
            Type::IntToBool => Some((Type::Int, Type::Bool)),
            Type::NodeToBool => Some((Type::Node, Type::Bool)),
            Type::IntToInt => Some((Type::Int, Type::Int)),
            Type::IntsToBool => Some((Type::Int, Type::IntToBool)),
            Type::NodesToBool => Some((Type::Node, Type::NodeToBool)),
            Type::IntsToInt => Some((Type::Int, Type::IntToInt)),
            _ => None,
        }
    }
}

// The base type with this code. The code is a byte of the sheet, and any byte is read.
pub fn base_type(code: u8) -> Type
    ensures { ty_of result ≡ base (base_of code) }
{
    Type::from(values::base_of(code))
}

// The base type that was inferred, if one was.
pub fn base_in(ty: Option<Type>) -> Option<Base>
    ensures { result ≡ base_type_in (typed ty) }
{
    match ty? {
        Type::Unit => Some(Base::Unit),
        Type::Bool => Some(Base::Bool),
        Type::Int => Some(Base::Int),
        Type::Node => Some(Base::Node),
        _ => None,
    }
}

// The type of the function with this code.
#[tactic(auto, unfolding(saiga::specs::Values::function_type, saiga::specs::Values::function_of))]
pub fn function_type(code: u8) -> Type
    ensures { ty_of result ≡ function_type (function_of code) }
{
    match code {
        0 | 1 => Type::IntsToBool,
        2 => Type::NodesToBool,
        3 => Type::BoolToBool,
        _ => Type::IntsToInt,
    }
}

// What is inferred, where this type was inferred of a part.
#[tactic(auto, using(crate::proofs::Inferred::given_laws))]
fn given(ty: Type, part: Option<Type>, whole: Option<Type>) -> Option<Type>
    ensures { typed result ≡ given (ty_of ty) (typed part) (typed whole) }
{
    if part == Some(ty) { whole } else { None }
}

// IF: the condition is a Bool, and the branches have one type.
#[tactic(auto, unfolding(saiga::specs::Types::infer_if))]
pub fn if_type(c: Option<Type>, t: Option<Type>, e: Option<Type>) -> Option<Type>
    ensures { typed result ≡ infer_if (typed c) (typed t) (typed e) }
{
    given(Type::Bool, c, given(t?, e, t))
}

// Application of f to x: the type of f is p ⇒ r and that of x is p.
#[tactic(auto, using(crate::proofs::Inferred::application_laws))]
pub fn application_type(f: Option<Type>, x: Option<Type>) -> Option<Type>
    ensures { typed result ≡ infer_application (typed f) (typed x) }
{
    let (p, r) = f?.parts()?;
    given(p, x, Some(r))
}

// Attribute a of a node, with parameter x.
#[tactic(auto, using(crate::proofs::Inferred::attribute_laws))]
pub fn attribute_type(
    declared: &Declared,
    a: usize,
    n: Option<Type>,
    x: Option<Type>,
) -> Option<Type>
    requires { a < declared.now.attributes }
    ensures { typed result ≡ infer_attribute (attribute_at (attributes_in declared.now.sheet.now declared.now.attributes) a) (typed n) (typed x) }
{
    let parameter = base_type(declared.parameter_at(a));
    let result = base_type(declared.result_at(a));
    given(Type::Node, n, given(parameter, x, Some(result)))
}
