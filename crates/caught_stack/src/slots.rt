// Stacks of slots.
ghost use Rattle.std.specs.Prelude.{◌≡◌, ◌<◌, [], ◌∷◌, length, IfOk};
ghost use Rattle.caught_stack.specs.Live.{slots};
ghost use Rattle.caught_stack.specs.Slots.{below, popped};

use crate::NoMemory;
use std::alloc::Global;
use std::marker::Model;

/// How many exceptions can be live.
pub const SLOTS: usize = 1024;

/// A stack of slots, the newest first, with room for all of them.
#[derive(Drop)]
pub struct SlotStack {
    pushed: Vec<u32>,
}

impl Model for SlotStack {
    ghost use Rattle.std.specs.Prelude.{◌≤◌, ℕ, List, reverse, vec_capacity};
    ghost use Rattle.caught_stack.specs.Live.{slots};

    ghost Value = { List ℕ };

    ghost view = { λ a. reverse a.pushed.items };

    ghost invariant = { λ a. slots ≤ vec_capacity a.pushed };
}

impl SlotStack {
    /// Without a slot.
    pub fn new(alloc: Global) -> Result<Self, NoMemory>
        ensures { IfOk result (λ stack. stack ≡ []) }
    {
        Ok(SlotStack {
            pushed: Vec::with_capacity(alloc, SLOTS)?,
        })
    }

    /// With every slot.
    pub fn full(alloc: Global) -> Result<Self, NoMemory>
        ensures { IfOk result (λ stack. stack ≡ below slots) }
    {
        let mut stack = SlotStack::new(alloc)?;
        for slot in 0..SLOTS as u32 {
            stack.push(slot);
        }
        Ok(stack)
    }

    /// How many slots it has.
    pub fn len(&self) -> usize
        ensures { result ≡ length self.now }
    {
        self.pushed.len()
    }

    /// Puts a slot on top.
    pub fn push(&mut self, slot: u32)
        requires { length self.old < slots }
        ensures { self.new ≡ slot ∷ self.old }
    {
        self.pushed.push_reserved(slot);
    }

    /// Takes the slot on top.
    pub fn pop(&mut self) -> Option<u32>
        ensures { (result, self.new) ≡ popped self.old }
    {
        self.pushed.pop()
    }
}
