// A stack, seen as the list of its items, the last one first.
ghost use Rattle.std.specs.Prelude.{◌≡◌, ◌↔◌, ◌∷◌, ◌++◌, [], IsTrue, OnOk, MatchOption, None, drop};
ghost use Rattle.std.specs.List.{last_or};

use std::alloc::{AllocError, Global};
use std::marker::Model;

/// A stack.
#[derive(Drop)]
pub(crate) struct Stack<T> {
    items: Vec<T>,
}

impl<T> Model for Stack<T> {
    ghost use Rattle.std.specs.Prelude.{List, reverse};
    ghost use Rattle.std.specs.Coded.{coded_list};

    ghost Value = { List T };

    ghost coded = { coded_list T.code };

    ghost view = { λ s. reverse s.items.items };
}

impl<T: Copy> Stack<T> {
    /// The empty stack, which takes no memory yet.
    pub(crate) fn new(alloc: Global) -> Self
        ensures { result ≡ [] }
    {
        Stack {
            items: Vec::new(alloc),
        }
    }

    pub(crate) fn is_empty(&self) -> bool
        ensures { IsTrue result ↔ (self.now ≡ []) }
    {
        self.items.is_empty()
    }

    /// The item that was pushed last.
    pub(crate) fn last(&self) -> Option<T>
        ensures { MatchOption result (self.now ≡ []) (λ item. self.now ≡ item ∷ drop 1 self.now) }
    {
        self.items.last().copied()
    }

    /// The item that was pushed first.
    pub(crate) fn first(&self) -> Option<T>
        ensures { result ≡ last_or None self.now }
    {
        self.items.first().copied()
    }

    pub(crate) fn push(&mut self, item: T) -> Result<(), AllocError>
        ensures ok { OnOk result (self.new ≡ item ∷ self.old) }
    {
        self.items.push(item)?;
        Ok(())
    }

    /// Takes the item that was pushed last.
    pub(crate) fn pop(&mut self) -> Option<T>
        ensures { MatchOption result ((self.old ≡ []) × (self.new ≡ [])) (λ item. self.old ≡ item ∷ self.new) }
    {
        self.items.pop()
    }
}
