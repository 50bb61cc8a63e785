// Short lists.
ghost use Rattle.std.specs.Prelude.{◌≡◌, slice_index_or};
ghost use Rattle.std.specs.Mem.{FitsInMemory};
ghost use Rattle.kind_rules.specs.Few.{items_of};

/// A list that takes no memory of its own where it has at most one entry.
#[derive(Drop)]
pub enum Few<T> {
    Empty,
    Alone(T),
    Each(Vec<T>),
}

impl<T> Few<T> {
    /// Its entries.
    pub fn as_slice(&self) -> &[T]
        requires { FitsInMemory T.row }
        ensures { result.now ≡ items_of self.now }
    {
        match self {
            Few::Empty => &[],
            Few::Alone(entry) => std::slice::from_ref(entry),
            Few::Each(entries) => entries.as_slice(),
        }
    }
}

impl<T: Copy> Few<T> {
    /// Entry i, and past the end what stands for none.
    pub fn at(&self, i: usize, none: T) -> T
        ensures { result ≡ slice_index_or (items_of self.now) i none }
    {
        match self {
            Few::Empty => none,
            Few::Alone(entry) => if i == 0 { *entry } else { none },
            Few::Each(entries) => match entries.get(i) {
                None => none,
                Some(entry) => *entry,
            },
        }
    }
}
