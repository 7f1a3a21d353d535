// Which initialiser of a constructor builds a part.
ghost use Rattle.std.specs.Prelude.{◌≡◌, map};
ghost use Rattle.cxx_ast.specs.View.{checked_of, expressions_of, initialiser_of, option_of};
ghost use Rattle.meaning_forms.specs.Call as rules;

use cxx_ast::declaration::Init;
use cxx_ast::expression::Expr;
use cxx_ast::name::Bound;
use cxx_ast::program::Checked;
use scope_world::member_place;

// The place of the part that an initialiser names.
fn place_named(program: &Checked, bound: Bound) -> u64
    ensures { result ≡ rules.place_named (checked_of program.now) bound }
{
    match bound {
        Bound::Field(class, member) => member_place(program, class, member),
        _ => 0,
    }
}

/// The arguments of the initialiser for the part with a place.
pub fn initialiser_for<'a>(program: &Checked, inits: &'a [Init], place: u64) -> Option<&'a [Expr]>
    ensures { option_of (λ x. expressions_of x.now) result ≡ rules.initialiser_for (checked_of program.now) (map initialiser_of inits.now) place }
{
    let mut rest = inits;
    'inits: while let Some((first, others)) = rest.split_first() {
        if place_named(program, first.name.bound) == place {
            return Some(first.args.as_slice());
        }
        rest = others;
    }
    None
}
