// The specifications that count where a program runs.
ghost use Rattle.std.specs.Prelude.{◌≡◌, ◌++◌, List, [], ◌∷◌, Some, IfOk, OnOk, map};
ghost use Rattle.cxx_ast.specs.Settled.{Allowed as Allows, lists, same_bound, same_listed, with_types, allowed_by, allowed_of, allowed_of_base, allowed_of_members, allowed_together, destructor_of, given, settle_class, settle_classes, settle_function, taken};
ghost use Rattle.cxx_ast.specs.View.{class_of, function_of, specification_of};
ghost use Rattle.cxx_check.specs.HeadingOf.{some_specification};
ghost use Rattle.cxx_check.specs.Together.{allowed_seen, together};

use crate::NoMemory;
use crate::heading::{copied_specification, copied_type, copied_types};
use crate::held::{beside, put};
use cxx_ast::declaration::{ClassDecl, Func, FuncKind, Spec};
use cxx_ast::name::{Bound, Name};
use cxx_ast::standard::Std;
use cxx_ast::types::{Param, Ty};
use std::alloc::Global;

// The most types that a destructor takes over from those of its class's parts.
const MOST_TAKEN: usize = 64;

/// What a destructor allows to come out of it.
#[derive(Drop)]
pub enum Allowed {
    All,
    Listed(Vec<Ty>),
}

// Two names are bound to the same class.
fn is_same_class(a: Bound, b: Bound) -> bool
    ensures { result ≡ same_bound a b }
{
    match (a, b) {
        (Bound::Class(j), Bound::Class(k)) => j == k,
        _ => false,
    }
}

// Two types that are listed are the same.
fn is_same_type(a: &Ty, b: &Ty) -> bool
    ensures { result ≡ same_listed a.now b.now }
{
    match (a, b) {
        (Ty::Int, Ty::Int) => true,
        (Ty::Object(m), Ty::Object(n)) => is_same_class(m.bound, n.bound),
        _ => false,
    }
}

// A list has a type.
fn lists(types: &[Ty], ty: &Ty) -> bool
    ensures { result ≡ lists types.now ty.now }
{
    for other in types {
        if is_same_type(other, ty) {
            return true;
        }
    }
    false
}

// Types behind others, each once; where they are too many to be taken over, all are allowed.
fn with_types(alloc: Global, types: Vec<Ty>, others: &[Ty]) -> Result<Allowed, NoMemory>
    ensures { IfOk result (λ a. (rest : List Allows) → taken (together (allowed_seen a) rest) ≡ taken (allowed_together (with_types types.items others.now) rest)) }
{
    let mut types = types;
    for ty in others {
        if !lists(types.as_slice(), ty) {
            if types.len() >= MOST_TAKEN {
                return Ok(Allowed::All);
            }
            let copy = copied_type(alloc, ty)?;
            put(copy, &mut types)?;
        }
    }
    Ok(Allowed::Listed(types))
}

// What a destructor with a specification allows.
fn allowed_by(alloc: Global, spec: &Spec) -> Result<Allowed, NoMemory>
    ensures { IfOk result (λ a. allowed_seen a ≡ allowed_by (Some (specification_of spec.now))) }
{
    match spec {
        Spec::Throw(types) => Ok(Allowed::Listed(copied_types(alloc, types.as_slice())?)),
        Spec::Noexcept(_, true) => Ok(Allowed::Listed(Vec::new(alloc))),
        Spec::Noexcept(_, false) => Ok(Allowed::All),
    }
}

// What a destructor allows, where it may have a specification.
fn allowed_by_some(alloc: Global, spec: &Option<Spec>) -> Result<Allowed, NoMemory>
    ensures { IfOk result (λ a. allowed_seen a ≡ allowed_by (some_specification spec.now)) }
{
    match spec {
        None => Ok(Allowed::All),
        Some(spec) => allowed_by(alloc, spec),
    }
}

// What the destructor of a class allows, declared or not, where one without a specification is given its own.
fn destructor_allows(alloc: Global, own: &Option<Spec>, funcs: &[Func]) -> Result<Allowed, NoMemory>
    ensures { IfOk result (λ a. allowed_seen a ≡ allowed_by (destructor_of (some_specification own.now) (map function_of funcs.now))) }
{
    for f in funcs {
        if matches!(f.kind, FuncKind::Destructor) {
            return match &f.spec {
                None => allowed_by_some(alloc, own),
                Some(spec) => allowed_by(alloc, spec),
            };
        }
    }
    allowed_by_some(alloc, own)
}

impl Allowed {
    // What one more destructor allows too.
    fn and(self, alloc: Global, other: &Allowed) -> Result<Self, NoMemory>
        ensures { IfOk result (λ a. (rest : List Allows) → taken (together (allowed_seen a) rest) ≡ taken (together (allowed_seen self) (allowed_seen other.now ∷ rest))) }
    {
        match self {
            Allowed::All => Ok(Allowed::All),
            Allowed::Listed(types) => match other {
                Allowed::All => Ok(Allowed::All),
                Allowed::Listed(others) => with_types(alloc, types, others.as_slice()),
            },
        }
    }

    // What the destructor of a class allows too that a name is bound to, where those of the classes so far are known.
    fn and_that_of(self, alloc: Global, before: &[Allowed], bound: Bound) -> Result<Self, NoMemory>
        ensures { IfOk result (λ a. (rest : List Allows) → taken (together (allowed_seen a) rest) ≡ taken (together (allowed_seen self) (allowed_of (map allowed_seen before.now) bound ++ rest))) }
    {
        match bound {
            Bound::Class(k) => match before.get(k as usize) {
                None => Ok(self),
                Some(other) => self.and(alloc, other),
            },
            _ => Ok(self),
        }
    }

    // What the destructor of a base allows too.
    fn and_the_base(
        self,
        alloc: Global,
        before: &[Allowed],
        base: &Option<Name>,
    ) -> Result<Self, NoMemory>
        ensures { IfOk result (λ a. (rest : List Allows) → taken (together (allowed_seen a) rest) ≡ taken (together (allowed_seen self) (allowed_of_base (map allowed_seen before.now) base.now ++ rest))) }
    {
        match base {
            None => Ok(self),
            Some(name) => self.and_that_of(alloc, before, name.bound),
        }
    }

    // What the destructors of data members allow too.
    fn and_the_members(
        self,
        alloc: Global,
        before: &[Allowed],
        members: &[Param],
    ) -> Result<Self, NoMemory>
        ensures { IfOk result (λ a. taken (allowed_seen a) ≡ taken (together (allowed_seen self) (allowed_of_members (map allowed_seen before.now) members.now))) }
    {
        let mut together = self;
        for member in members {
            if let Ty::Object(name) = &member.ty {
                together = together.and_that_of(alloc, before, name.bound)?;
            }
        }
        Ok(together)
    }

    // The specification that a destructor takes over.
    fn taken(self) -> Option<Spec>
        ensures { some_specification result ≡ taken (allowed_seen self) }
    {
        match self {
            Allowed::All => None,
            Allowed::Listed(types) => {
                if types.is_empty() {
                    return Some(Spec::Noexcept(0, true));
                }
                if types.len() > MOST_TAKEN {
                    return None;
                }
                Some(Spec::Throw(types))
            }
        }
    }
}

// The specification of a class's destructor that is implicit, or declared without one.
fn given(
    alloc: Global,
    standard: Std,
    before: &[Allowed],
    class: &ClassDecl,
) -> Result<Option<Spec>, NoMemory>
    ensures { IfOk result (λ s. some_specification s ≡ given standard (map allowed_seen before.now) (class_of class.now)) }
{
    match standard {
        Std::Cxx03 => Ok(None),
        Std::Cxx11 => {
            let nothing = Allowed::Listed(Vec::new(alloc));
            let base = nothing.and_the_base(alloc, before, &class.base)?;
            let all = base.and_the_members(alloc, before, class.members.as_slice())?;
            Ok(all.taken())
        }
    }
}

// A function with the specification that counts.
fn settle_function(alloc: Global, own: &Option<Spec>, f: Func) -> Result<Func, NoMemory>
    ensures { IfOk result (λ g. function_of g ≡ settle_function (some_specification own.now) (function_of f)) }
{
    match &f.spec {
        None => {
            if !matches!(f.kind, FuncKind::Destructor) {
                return Ok(f);
            }
            let (f, spec) = beside(f, copied_specification(alloc, own))?;
            Ok(Func { spec, ..f })
        }
        Some(Spec::Noexcept(_, false)) => Ok(Func { spec: None, ..f }),
        Some(_) => Ok(f),
    }
}

/// Functions with the specifications that count, where a destructor without one is given its own.
pub fn settle_functions(
    alloc: Global,
    own: &Option<Spec>,
    funcs: Vec<Func>,
) -> Result<Vec<Func>, NoMemory>
    ensures { IfOk result (λ fs. map function_of fs.items ≡ map (settle_function (some_specification own.now)) (map function_of funcs.items)) }
{
    let mut settled = Vec::new(alloc);
    for f in funcs {
        let next = settle_function(alloc, own, f)?;
        put(next, &mut settled)?;
    }
    Ok(settled)
}

// A class with the specifications that count.
fn settle_class(alloc: Global, own: &Option<Spec>, class: ClassDecl) -> Result<ClassDecl, NoMemory>
    ensures { IfOk result (λ c. class_of c ≡ settle_class (some_specification own.now) (class_of class)) }
{
    let ClassDecl {
        name,
        base,
        members,
        funcs,
    } = class;
    let funcs = settle_functions(alloc, own, funcs);
    let ((name, base, members), funcs) = beside((name, base, members), funcs)?;
    Ok(ClassDecl {
        name,
        base,
        members,
        funcs,
    })
}

// Notes what the destructor of a class allows behind those before it, and gives the specification of one that has none.
fn note_destructor(
    alloc: Global,
    standard: Std,
    before: &mut Vec<Allowed>,
    class: &ClassDecl,
) -> Result<Option<Spec>, NoMemory>
    ensures own { IfOk result (λ s. some_specification s ≡ given standard (map allowed_seen before.old.items) (class_of class.now)) }
    ensures before { OnOk result (map allowed_seen before.new.items ≡ map allowed_seen before.old.items ++ allowed_by (destructor_of (given standard (map allowed_seen before.old.items) (class_of class.now)) (class_of class.now).functions) ∷ []) }
{
    let own = given(alloc, standard, before.as_slice(), class)?;
    let allowed = destructor_allows(alloc, &own, class.funcs.as_slice())?;
    put(allowed, before)?;
    Ok(own)
}

// A class with the specifications that count, behind those before it.
fn settle_next(
    alloc: Global,
    standard: Std,
    before: &mut Vec<Allowed>,
    class: ClassDecl,
) -> Result<ClassDecl, NoMemory>
    ensures class { IfOk result (λ c. class_of c ≡ settle_class (given standard (map allowed_seen before.old.items) (class_of class)) (class_of class)) }
    ensures before { OnOk result (map allowed_seen before.new.items ≡ map allowed_seen before.old.items ++ allowed_by (destructor_of (given standard (map allowed_seen before.old.items) (class_of class)) (class_of class).functions) ∷ []) }
{
    let own = note_destructor(alloc, standard, before, &class)?;
    settle_class(alloc, &own, class)
}

/// The classes of a program, in order, with the specifications that count by a standard.
pub fn settle_classes(
    alloc: Global,
    standard: Std,
    classes: Vec<ClassDecl>,
) -> Result<Vec<ClassDecl>, NoMemory>
    ensures { IfOk result (λ cs. map class_of cs.items ≡ settle_classes standard [] (map class_of classes.items)) }
{
    let mut before = Vec::new(alloc);
    let mut settled = Vec::new(alloc);
    for class in classes {
        let next = settle_next(alloc, standard, &mut before, class)?;
        put(next, &mut settled)?;
    }
    Ok(settled)
}
