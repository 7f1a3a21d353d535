// The items that a turn shows.
ghost use Rattle.std.specs.Prelude.{◌≡◌, ◌<◌, [], ◌∷◌, ◌++◌, length, Some};
ghost use Rattle.cxa_runtime.specs.Items.{items_of};

use run_items::Item;
use std::marker::Model;

/// Up to two items: no runtime call shows more.
#[derive(Drop)]
pub struct Shown {
    first: Option<Item>,
    second: Option<Item>,
}

impl Model for Shown {
    ghost use Rattle.std.specs.Prelude.{List};
    ghost use Rattle.run_items.specs.declared.item.Item.{Item};
    ghost use Rattle.cxa_runtime.specs.Items.{items_of};

    ghost Value = { List Item };

    ghost view = { λ s. items_of s.first s.second };
}

impl Shown {
    /// Nothing.
    pub fn new() -> Shown
        ensures { result ≡ [] }
    {
        Shown {
            first: None,
            second: None,
        }
    }

    /// Adds an item.
    pub fn push(&mut self, item: Item)
        requires { length self.old < 2 }
        ensures { self.new ≡ self.old ++ item ∷ [] }
    {
        if self.first.is_none() {
            self.first = Some(item);
            self.second = None;
        } else {
            self.second = Some(item);
        }
    }

    /// The items: the second is none where the first is.
    pub fn items(&self) -> (Option<Item>, Option<Item>)
        ensures { self.now ≡ items_of result.0 result.1 }
    {
        (self.first, self.second)
    }
}
