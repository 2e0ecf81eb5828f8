//! What only proofs see again.

ghost use Rattle.std.specs.Prelude.{List};
ghost use Rattle.std.specs.Borrow.{ftrue};

use std::marker::{Model, PhantomData};

/// A value that was seen, for proofs alone: it takes no memory, and keeps nothing of the value.
#[derive(Drop)]
pub(crate) struct Seen<A> {
    of: PhantomData<A>,
    ghost values: { List A },
}

impl<A> Model for Seen<A> {
    ghost also_owns = { λ _. ftrue };
}

impl<A> Seen<A> {
    ghost use Rattle.std.specs.Prelude.{◌≡◌, [], ◌∷◌};

    /// This value.
    pub(crate) fn of(value: &A) -> Seen<A>
        ensures { result.values ≡ value.now ∷ [] }
    {
        Seen { of: PhantomData }
    }
}
