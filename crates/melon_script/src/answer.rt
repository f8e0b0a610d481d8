ghost use Rattle.std.specs.Prelude.{◌≡◌, ◌<◌, ◌∷◌, ◌++◌, [], IfOk, OnOk, OnErr};
ghost use Rattle.std.specs.Vec.{vec_len, vec_capacity};

use crate::Item;
use std::alloc::{AllocError, Global};
use std::marker::Model;

/// What a step prints: its items in order. An answer without items has room for the first.
#[derive(Debug, Drop)]
pub struct Answer {
    items: Vec<Item>,
}

impl Model for Answer {
    ghost use Rattle.std.specs.Prelude.{List};
    ghost use Rattle.melon_script.specs.declared.item.Item.{Item};

    ghost Value = { List Item };

    ghost use Rattle.melon_script.specs.Inside.{items_in, HasRoom};

    ghost view = { items_in };

    ghost invariant = { HasRoom };
}

/// A push that takes no memory, since there is room.
fn push_reserved(items: &mut Vec<Item>, item: Item)
    requires { vec_len items.old < vec_capacity items.old }
    ensures { items.new.items ≡ items.old.items ++ item ∷ [] }
{
    match items.push(item) {
        Ok(()) => (),
        Err(_) => unreachable!(),
    }
}

impl Answer {
    /// The answer without items, and with room for one.
    pub fn new(alloc: Global) -> Result<Answer, AllocError>
        ensures { IfOk result (λ answer. answer ≡ []) }
    {
        let mut items = Vec::new(alloc);
        items.reserve(1)?;
        Ok(Answer { items })
    }

    /// The answer of one item. It takes no memory.
    pub fn with_first(self, item: Item) -> Answer
        requires { self ≡ [] }
        ensures { result ≡ item ∷ [] }
    {
        let mut items = self.items;
        push_reserved(&mut items, item);
        Answer { items }
    }

    /// Puts an item behind the last. After an error the answer is as it was.
    pub fn push(&mut self, item: Item) -> Result<(), AllocError>
        ensures ok { OnOk result (self.new ≡ self.old ++ item ∷ []) }
        ensures err { OnErr result (self.new ≡ self.old) }
    {
        self.items.push(item)?;
        Ok(())
    }

    /// The items in their order.
    pub fn as_slice(&self) -> &[Item]
        ensures { result.now ≡ self.now }
    {
        self.items.as_slice()
    }
}
