// A row: up to N items at the front of an array, with how many they are, since memory is fixed; read as a slice.
ghost use Rattle.std.specs.Prelude.{◌≡◌, ◌+◌, ◌<◌, ◌≤◌, [], ◌∷◌, ◌++◌, length, take};

use std::alloc::AllocError;

pub struct Row<T, const N: usize> {
    pub list: [T; N],
    pub count: usize,
    ghost inside: { count ≤ N },
}

// By hand: no derive knows what the ghost field of a copy holds.
impl<T: Copy, const N: usize> Clone for Row<T, N> {
    fn clone(&self) -> Result<Self, AllocError> {
        Ok(*self)
    }
}

impl<T: Copy, const N: usize> Copy for Row<T, N> {}

impl<T: Copy, const N: usize> Row<T, N> {
    // No items, in an array that has the filler throughout.
    pub fn none(filler: T) -> Row<T, N>
        ensures { result.count ≡ 0 }
    {
        let list = [filler; N];
        Row { list, count: 0 }
    }

    // The first `count` items of a list.
    pub fn first(list: [T; N], count: usize) -> Row<T, N>
        requires { count ≤ N }
        ensures list { result.list ≡ list }
        ensures count { result.count ≡ count }
    {
        Row { list, count }
    }

    // Puts more items behind these.
    pub fn extend(&mut self, more: &[T])
        requires { self.old.count + length more.now ≤ N }
        ensures items { take self.new.count self.new.list ≡ take self.old.count self.old.list ++ more.now }
        ensures count { self.new.count ≡ self.old.count + length more.now }
    {
        let count = self.count;
        let end = count + more.len();
        let list = &mut self.list[..];
        list[count..end].copy_from_slice(more);
        self.count = end;
    }

    // Puts one more item behind these.
    pub fn push(&mut self, item: T)
        requires { self.old.count < N }
        ensures items { take self.new.count self.new.list ≡ take self.old.count self.old.list ++ item ∷ [] }
        ensures count { self.new.count ≡ self.old.count + 1 }
    {
        self.extend(&[item]);
    }

    pub fn as_slice(&self) -> &[T]
        ensures items { result.now ≡ take self.now.count self.now.list }
        ensures len { length result.now ≡ self.now.count }
    {
        &self.list[..self.count]
    }
}
