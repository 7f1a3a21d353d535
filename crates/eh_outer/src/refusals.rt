// The refusals of a store.
ghost use Rattle.std.specs.Prelude.{◌≡◌, Some, None, string_bytes};
ghost use Rattle.eh_outer.specs.Schedule.{one_more};

use crate::RefusalKind;
use std::marker::Model;

/// A refusal that a store keeps: its kind, and the name that was asked for.
#[derive(Drop)]
pub struct Refusal {
    kind: RefusalKind,
    name: String,
}

impl Model for Refusal {
    ghost use Rattle.std.specs.Prelude.{string_bytes};
    ghost use Rattle.eh_outer.specs.Store.{RefusalView};

    ghost Value = { RefusalView };

    ghost view = { λ a. record { kind = a.kind; name = string_bytes a.name } };
}

/// How many calls a store has refused, and the last of them.
#[derive(Drop)]
pub struct Refusals {
    count: u64,
    last: Option<Refusal>,
}

impl Model for Refusals {
    ghost use Rattle.eh_outer.specs.Store.{RefusalsView};

    ghost Value = { RefusalsView };

    ghost view = { λ a. record { count = a.count; last = a.last } };
}

impl Refusals {
    /// None yet.
    pub fn new() -> Self
        ensures { result ≡ record { count = 0; last = None } }
    {
        Refusals {
            count: 0,
            last: None,
        }
    }

    /// One more, which is then the last.
    pub fn add(&mut self, kind: RefusalKind, name: String)
        ensures { self.new ≡ record { count = one_more self.old.count; last = Some (record { kind = kind; name = string_bytes name }) } }
    {
        self.count = self.count.saturating_add(1);
        self.last = Some(Refusal { kind, name });
    }
}
