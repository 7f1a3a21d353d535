// The refusal of a program.
ghost use Rattle.std.specs.Prelude.{◌≡◌, [], IfOk, map, option_map};
ghost use Rattle.cxx_ast.specs.declared.name.Bound.TheVariants.{Free};
ghost use Rattle.cxx_ast.specs.Broken.{is_main, has_main};
ghost use Rattle.cxx_ast.specs.Declare.{at_the_start, definitions};
ghost use Rattle.cxx_ast.specs.Refused.{refused};
ghost use Rattle.cxx_ast.specs.View.{function_of, declaration_of, program_of};
ghost use Rattle.cxx_check.specs.RefusalOf.{pair_of};

use crate::NoMemory;
use crate::declared::declarations;
use crate::once::once_only_found;
use crate::standards::standard_found;
use cxx_ast::declaration::{Decl, Func};
use cxx_ast::name::{Bound, Name};
use cxx_ast::program::Program;
use cxx_ast::standard::Std;
use cxx_ast::text::Text;
use cxx_ast::types::Ty;
use cxx_rules::{Environment, Found, Refusal, Rule, Texts};
use std::alloc::Global;

// The names of the functions that a program defines, in order.
fn definitions(alloc: Global, decls: &[Decl]) -> Result<Texts, NoMemory>
    ensures { IfOk result (λ texts. texts ≡ definitions (map declaration_of decls.now)) }
{
    let mut texts = Texts::new(alloc);
    for d in decls {
        if let Decl::Func(f) = d {
            if f.body.is_some() {
                texts.add(alloc, f.name.text.as_bytes())?;
            }
        }
    }
    Ok(texts)
}

// `int main()` without parameters is defined.
fn is_main(f: &Func) -> bool
    ensures { result ≡ is_main (function_of f.now) }
{
    f.name.text.as_bytes() == b"main".as_slice()
        && f.body.is_some()
        && f.params.len() == 0
        && matches!(f.result, Ty::Int)
}

// Some declaration is that.
fn has_main(decls: &[Decl]) -> bool
    ensures { result ≡ has_main (map declaration_of decls.now) }
{
    for d in decls {
        if let Decl::Func(f) = d {
            if is_main(f) {
                return true;
            }
        }
    }
    false
}

/// The name of a data member that has none.
pub fn nameless(alloc: Global) -> Name
    ensures { result ≡ record { text = []; place = 0; bound = Free } }
{
    Name {
        text: Text::new(Vec::new(alloc)),
        place: 0,
        bound: Bound::Free,
    }
}

/// What is known before the first declaration of a program.
pub fn known_at_first<'t>(alloc: Global, decls: &[Decl]) -> Result<Environment<'t>, NoMemory>
    ensures { IfOk result (λ e. e ≡ at_the_start (map declaration_of decls.now)) }
{
    let texts = definitions(alloc, decls)?;
    Environment::new(alloc, texts)
}

// What a program breaks, by what is known before its first declaration.
fn all_found<'t>(
    alloc: Global,
    env: &mut Environment<'t>,
    nameless: &'t Name,
    program: &'t Program,
    standard: Std,
) -> Result<Found, NoMemory>
    requires { nameless.now ≡ record { text = []; place = 0; bound = Free } }
    ensures { env.old ≡ at_the_start (program_of program.now).declarations → IfOk result (λ found. option_map pair_of found.least ≡ refused standard (program_of program.now)) }
{
    let decls = program.decls.as_slice();
    let walked = declarations(alloc, env, nameless, decls)?;
    let once = once_only_found(alloc, env, decls)?;
    let main = Found::broken_if(!has_main(decls), Rule::NoMain, program.length);
    let own = standard_found(alloc, env, standard, decls)?;
    Ok(walked.and(once).and(main).and(own))
}

// What a program breaks.
fn program_found<'t>(
    alloc: Global,
    nameless: &'t Name,
    program: &'t Program,
    standard: Std,
) -> Result<Found, NoMemory>
    requires { nameless.now ≡ record { text = []; place = 0; bound = Free } }
    ensures { IfOk result (λ found. option_map pair_of found.least ≡ refused standard (program_of program.now)) }
{
    let mut env = known_at_first(alloc, program.decls.as_slice())?;
    all_found(alloc, &mut env, nameless, program, standard)
}

/// Why a program is refused, where it breaks a rule of a standard: the broken rule at the least place, in bytes from the source's start, and
/// there the least number.
pub fn refusal(alloc: Global, program: &Program, standard: Std) -> Result<Option<Refusal>, NoMemory>
    ensures { IfOk result (λ r. option_map pair_of r ≡ refused standard (program_of program.now)) }
{
    let none = nameless(alloc);
    let found = program_found(alloc, &none, program, standard)?;
    Ok(found.least)
}
