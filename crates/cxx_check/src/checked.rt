// Checked programs.
ghost use Rattle.std.specs.Prelude.{◌≡◌, ◌∷◌, [], None, IfOk, map, codes};
ghost use Rattle.cxx_ast.specs.declared.name.Bound.TheVariants.{Free};
ghost use Rattle.cxx_ast.specs.Checked.{checked, resolve_declarations, classes_of, globals_of, functions_of, bad_exception};
ghost use Rattle.cxx_ast.specs.Declare.{at_the_start};
ghost use Rattle.cxx_ast.specs.Resolve.{function_number};
ghost use Rattle.cxx_ast.specs.Settled.{settle_classes, settle_function};
ghost use Rattle.cxx_ast.specs.View.{class_of, function_of, declaration_of, program_of, checked_of};
ghost use Rattle.cxx_check.specs.AnswerOf.{Answers};

use crate::NoMemory;
use crate::bound::numbered;
use crate::declared_tree::{declarations_bound, parts_bound};
use crate::error::CheckError;
use crate::parts::Parts;
use crate::refused::{known_at_first, nameless, refusal};
use crate::settled::{settle_classes, settle_functions};
use cxx_ast::declaration::Decl;
use cxx_ast::name::Name;
use cxx_ast::program::{Checked, Program};
use cxx_ast::standard::Std;
use std::alloc::Global;

// The number of `main` among the functions that a program defines.
fn main_number(alloc: Global, decls: &[Decl]) -> Result<u32, NoMemory>
    ensures { IfOk result (λ n. n ≡ function_number (at_the_start (map declaration_of decls.now)) (codes "main")) }
{
    let env = known_at_first(alloc, decls)?;
    numbered(env.function_number(b"main".as_slice()))
}

// Declarations with their names bound.
fn rebuilt<'t>(alloc: Global, nameless: &'t Name, decls: &'t [Decl]) -> Result<Vec<Decl>, NoMemory>
    requires { nameless.now ≡ record { text = []; place = 0; bound = Free } }
    ensures { IfOk result (λ r. map declaration_of r.items ≡ resolve_declarations (at_the_start (map declaration_of decls.now)) (map declaration_of decls.now)) }
{
    let mut env = known_at_first(alloc, decls)?;
    declarations_bound(alloc, &mut env, nameless, decls)
}

// The classes, globals and functions of declarations with their names bound, behind the class `std::bad_exception`.
fn gathered<'t>(alloc: Global, nameless: &'t Name, decls: &'t [Decl]) -> Result<Parts, NoMemory>
    requires { nameless.now ≡ record { text = []; place = 0; bound = Free } }
    ensures classes { IfOk result (λ p. map class_of p.classes.items ≡ bad_exception ∷ classes_of (resolve_declarations (at_the_start (map declaration_of decls.now)) (map declaration_of decls.now))) }
    ensures globals { IfOk result (λ p. p.globals.items ≡ globals_of (resolve_declarations (at_the_start (map declaration_of decls.now)) (map declaration_of decls.now))) }
    ensures functions { IfOk result (λ p. map function_of p.functions.items ≡ functions_of (resolve_declarations (at_the_start (map declaration_of decls.now)) (map declaration_of decls.now))) }
{
    let mut env = known_at_first(alloc, decls)?;
    parts_bound(alloc, &mut env, nameless, decls)
}

// The same with the specifications that count where the program runs.
fn settled(alloc: Global, standard: Std, parts: Parts) -> Result<Parts, NoMemory>
    ensures classes { IfOk result (λ p. map class_of p.classes.items ≡ settle_classes standard [] (map class_of parts.classes.items)) }
    ensures globals { IfOk result (λ p. p.globals.items ≡ parts.globals.items) }
    ensures functions { IfOk result (λ p. map function_of p.functions.items ≡ map (settle_function None) (map function_of parts.functions.items)) }
{
    let Parts {
        classes,
        globals,
        functions,
    } = parts;
    let classes = settle_classes(alloc, standard, classes)?;
    let functions = settle_functions(alloc, &None, functions)?;
    Ok(Parts {
        classes,
        globals,
        functions,
    })
}

// The classes, globals and functions of a program as they count where it runs.
fn parts_of<'t>(
    alloc: Global,
    standard: Std,
    nameless: &'t Name,
    decls: &'t [Decl],
) -> Result<Parts, NoMemory>
    requires { nameless.now ≡ record { text = []; place = 0; bound = Free } }
    ensures classes { IfOk result (λ p. map class_of p.classes.items ≡ settle_classes standard [] (bad_exception ∷ classes_of (resolve_declarations (at_the_start (map declaration_of decls.now)) (map declaration_of decls.now)))) }
    ensures globals { IfOk result (λ p. p.globals.items ≡ globals_of (resolve_declarations (at_the_start (map declaration_of decls.now)) (map declaration_of decls.now))) }
    ensures functions { IfOk result (λ p. map function_of p.functions.items ≡ map (settle_function None) (functions_of (resolve_declarations (at_the_start (map declaration_of decls.now)) (map declaration_of decls.now)))) }
{
    let parts = gathered(alloc, nameless, decls)?;
    settled(alloc, standard, parts)
}

// The same program with every name bound, and its classes and functions with the specifications that count.
fn bound_program<'t>(
    alloc: Global,
    nameless: &'t Name,
    program: &'t Program,
    standard: Std,
) -> Result<Checked, NoMemory>
    requires { nameless.now ≡ record { text = []; place = 0; bound = Free } }
    ensures { IfOk result (λ c. checked_of c ≡ checked standard (program_of program.now)) }
{
    let decls = program.decls.as_slice();
    let main = main_number(alloc, decls)?;
    let rebuilt = rebuilt(alloc, nameless, decls)?;
    let parts = parts_of(alloc, standard, nameless, decls)?;
    Ok(Checked {
        program: Program {
            decls: rebuilt,
            tokens: program.tokens,
            length: program.length,
        },
        classes: parts.classes,
        globals: parts.globals,
        functions: parts.functions,
        main,
    })
}

// The answer to a program that is lent.
fn answer(alloc: Global, program: &Program, standard: Std) -> Result<Checked, CheckError>
    ensures { Answers standard (program_of program.now) result }
{
    if let Some(refusal) = refusal(alloc, program, standard)? {
        return Err(CheckError::Refused(refusal.number, refusal.place));
    }
    let none = nameless(alloc);
    let checked = bound_program(alloc, &none, program, standard)?;
    Ok(checked)
}

/// Checks a program by the static rules of a standard.
///
/// Where it breaks none, the answer is the same program with every name bound, and with the specifications that count where it runs.
/// Else it is refused with the rule that is broken at the least place, and at one place the least number. Places are bytes from the
/// source's start.
pub fn check(alloc: Global, program: Program, standard: Std) -> Result<Checked, CheckError>
    ensures { Answers standard (program_of program) result }
{
    answer(alloc, &program, standard)
}
