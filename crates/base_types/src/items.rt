// A list that owns its items.
ghost use Rattle.std.specs.Prelude.{◌≡◌, ◌<◌, ◌++◌, [], ◌∷◌, length, slice_index_or, eqb, OnOk, OnErr};

use std::alloc::AllocError;
use std::marker::Model;

/// A list that owns its items. Contracts see it as the plain list of them.
#[derive(Drop)]
pub struct Items<T> {
    list: Vec<T>,
}

impl<T> Model for Items<T> {
    ghost use Rattle.std.specs.Prelude.{List};

    ghost Value = { List T };

    ghost view = { λ items. items.list.items };
}

impl<T> Items<T> {
    /// The items of the vector, in order. Takes no memory.
    pub fn from_vec(list: Vec<T>) -> Self
        ensures { result ≡ list.items }
    {
        Items { list }
    }

    /// The items as a vector, in order. Takes no memory.
    pub fn into_vec(self) -> Vec<T>
        ensures { result.items ≡ self }
    {
        let Items { list } = self;
        list
    }

    /// How many items there are.
    pub fn len(&self) -> usize
        ensures { result ≡ length self.now }
    {
        self.list.len()
    }

    /// Whether there is none.
    pub fn is_empty(&self) -> bool
        ensures { result ≡ eqb (length self.now) 0 }
    {
        self.list.is_empty()
    }

    /// Item number `at`, counted from 0.
    pub fn get(&self, at: usize) -> &T
        requires { at < length self.now }
        ensures { result.now ≡ slice_index_or self.now at result.now }
    {
        &self.list[at]
    }

    /// All items, in order.
    pub fn as_slice(&self) -> &[T]
        ensures { result.now ≡ self.now }
    {
        self.list.as_slice()
    }

    /// Puts an item behind the others. Where there is no memory the list stays as it was, and the item is dropped.
    pub fn push(&mut self, item: T) -> Result<(), AllocError>
    where
        T: Drop,
        ensures added { OnOk result (self.new ≡ self.old ++ item ∷ []) }
        ensures kept { OnErr result (self.new ≡ self.old) }
    {
        self.list.push(item)?;
        Ok(())
    }
}

#[cfg(test)]
mod tests {
    use super::*;
    use std::test::Fail;

    #[test]
    fn an_item_is_put_behind_the_others(rt: HostRuntime) -> Result<(), Fail> {
        let mut items = Items::from_vec(vec![in rt.alloc(); 'a', 'b']?);
        assert!(rt; items.push('c').is_ok());
        assert_eq!(rt; items.as_slice(), ['a', 'b', 'c'].as_slice());
        Ok(())
    }
}
