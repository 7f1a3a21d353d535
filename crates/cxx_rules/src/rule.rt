// The static rules.
ghost use Rattle.std.specs.Prelude.{◌≡◌};
ghost use Rattle.cxx_rules.specs.Numbered.{number_of};

/// A rule that a program may break.
#[derive(Clone, Copy, Drop)]
pub enum Rule {
    UnknownName,
    Redeclared,
    TypeMismatch,
    Arity,
    IncompleteClass,
    HandlerOrder,
    ConstWrite,
    SpecificationMismatch,
    NoMain,
    FrameTooLarge,
    FunctionTooLong,
    ClassTooLarge,
    NotLvalue,
    NotDefined,
    LoopJump,
    ReturnForm,
    NoDefault,
    MainUse,
    InitialiserList,
    HandlerForm,
    NewKeyword,
    NoexceptIn03,
}

impl Rule {
    /// The number under which a source is refused that breaks the rule.
    pub fn number(self) -> u8
        ensures { result ≡ number_of self }
    {
        match self {
            Rule::UnknownName => 30,
            Rule::Redeclared => 31,
            Rule::TypeMismatch => 32,
            Rule::Arity => 33,
            Rule::IncompleteClass => 34,
            Rule::HandlerOrder => 35,
            Rule::ConstWrite => 36,
            Rule::SpecificationMismatch => 37,
            Rule::NoMain => 38,
            Rule::FrameTooLarge => 39,
            Rule::FunctionTooLong => 40,
            Rule::ClassTooLarge => 41,
            Rule::NotLvalue => 42,
            Rule::NotDefined => 43,
            Rule::LoopJump => 44,
            Rule::ReturnForm => 45,
            Rule::NoDefault => 46,
            Rule::MainUse => 47,
            Rule::InitialiserList => 48,
            Rule::HandlerForm => 49,
            Rule::NewKeyword => 70,
            Rule::NoexceptIn03 => 71,
        }
    }
}
