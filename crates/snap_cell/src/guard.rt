//! The published value, as a guard lends it.
ghost use Rattle.std.specs.Prelude.{◌≡◌};

/// What a guard has while it reads, and how it goes back into its home, the reader. A type
/// parameter of the guard stands for it, so that contracts see what the guard leaves behind its
/// reference.
pub trait Stay {
    type Home;

    type Value;

    type Cell;

    ghost value: { Self → Self.Value };

    ghost cell: { Self → Self.Cell };

    ghost cell_of_home: { Self.Home → Self.Cell };

    ghost returned: { Self.Home → Self.Home → Type 0 };

    fn value(&self) -> &Self::Value
        ensures { result.now ≡ value self.now };

    fn put_back(self, home: &mut Self::Home)
        requires { ∥ cell self ≡ cell_of_home home.old ∥₁ }
        ensures returned { returned home.old home.new }
        ensures cell { ∥ cell self ≡ cell_of_home home.new ∥₁ };
}

/// What a reader entered, lent for as long as this lives. Then the reader is back.
pub struct Guard<'a, S: Stay> {
    pub(crate) home: &'a mut S::Home,
    pub(crate) stay: S,
    ghost of_cell: { ∥ S.cell stay ≡ S.cell_of_home home.now ∥₁ },
}

impl<S: Stay> Guard<'_, S> {
    /// The value.
    pub fn get(&self) -> &S::Value
        ensures { result.now ≡ S.value self.now.stay }
    {
        self.stay.value()
    }
}

impl<S: Stay> Drop for Guard<'_, S> {
    fn drop(self)
        ensures { S.returned self.entry.home.now self.exit.0.now }
    {
        let Self { home, stay } = self;
        stay.put_back(home);
    }
}
