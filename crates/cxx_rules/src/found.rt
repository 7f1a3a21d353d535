// What a walk finds.
ghost use Rattle.std.specs.Prelude.{◌≡◌, Some, true, if◌then◌else◌};
ghost use Rattle.cxx_rules.specs.Numbered.{number_of};
ghost use Rattle.cxx_rules.specs.Summary.{refusal, is_before, joined, nothing_found, broken_at, both};
ghost use Rattle.cxx_ast.specs.Rule.{not_defined};

use crate::rule::Rule;

/// Why a source is refused: the number of a rule, and the place where it is broken.
#[derive(Clone, Copy, Debug, Drop, PartialEq, Eq)]
pub struct Refusal {
    pub number: u8,
    pub place: u32,
}

impl Refusal {
    // It answers in place of the other.
    #[tactic(auto, unfolding(crate::specs::Summary::is_before))]
    fn is_before(self, other: Refusal) -> bool
        ensures { result ≡ is_before self other }
    {
        self.place < other.place || self.place == other.place && self.number < other.number
    }
}

/// What was found in a part of a program: the refusal that answers, and whether the part breaks no rule itself. The use of a
/// function that is never defined refuses the source, and leaves the part sound.
#[derive(Clone, Copy, Drop)]
pub struct Found {
    pub least: Option<Refusal>,
    pub is_sound: bool,
}

// The refusal that answers of two.
fn joined(first: Option<Refusal>, second: Option<Refusal>) -> Option<Refusal>
    ensures { result ≡ joined first second }
{
    match first {
        None => second,
        Some(a) => match second {
            None => first,
            Some(b) => { if b.is_before(a) { second } else { first } }
        },
    }
}

impl Found {
    /// Nothing was found.
    pub fn nothing() -> Self
        ensures { result ≡ nothing_found }
    {
        Found {
            least: None,
            is_sound: true,
        }
    }

    /// A rule is broken at a place.
    pub fn broken(rule: Rule, place: u32) -> Self
        ensures { result ≡ broken_at (number_of rule) place }
    {
        Found {
            least: Some(Refusal {
                number: rule.number(),
                place,
            }),
            is_sound: false,
        }
    }

    /// A rule is broken at a place, where a test says so.
    pub fn broken_if(test: bool, rule: Rule, place: u32) -> Self
        ensures { result ≡ (if test then broken_at (number_of rule) place else nothing_found) }
    {
        if test {
            Found::broken(rule, place)
        } else {
            Found::nothing()
        }
    }

    /// A function is used, which has its first declaration at a place.
    pub fn used(is_defined: bool, place: u32) -> Self
        ensures { result ≡ (if is_defined then nothing_found else record { least = Some (refusal not_defined place); is_sound = true }) }
    {
        if is_defined {
            Found::nothing()
        } else {
            Found {
                least: Some(Refusal {
                    number: Rule::NotDefined.number(),
                    place,
                }),
                is_sound: true,
            }
        }
    }

    /// What was found here and there.
    #[tactic(auto, unfolding(crate::specs::Summary::both))]
    pub fn and(self, other: Found) -> Self
        ensures { result ≡ both self other }
    {
        Found {
            least: joined(self.least, other.least),
            is_sound: self.is_sound && other.is_sound,
        }
    }
}
