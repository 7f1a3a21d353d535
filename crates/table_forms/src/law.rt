// What the definitions say of one another.
ghost use Rattle.std.specs.Prelude.{◌≡◌, ◌↔◌, ℕ};
ghost use Rattle.eh_bytes.specs.Memory.{Part};
ghost use Rattle.table_forms.specs.LsdaHead.{Head};
ghost use Rattle.table_forms.specs.LsdaChain.{MeetsTwice, chain_of, repeated};

/// A chain is called a loop, by counting its records, exactly where it comes to one record twice.
pub fn a_chain_loops_where_it_repeats()
    ensures { (part : Part) (h : Head) (a : ℕ) → ((chain_of part h a).ending ≡ repeated) ↔ MeetsTwice part h a }
{}
