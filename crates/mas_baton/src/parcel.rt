//! A value in a box, which is handed on without moving it.

ghost use Rattle.std.specs.Prelude.{◌≡◌, IfOk};
ghost use Rattle.std.specs.Borrow.{Lends, sem};
ghost use Rattle.mas_baton.specs.contracts.parcel.Parcel.{the_row};

use asl_term::sequence::Starved;
use std::alloc::Global;
use std::marker::Model;

/// A box that contracts see as its value.
pub struct Parcel<T> {
    inner: Box<T>,
}

/// By hand, so that whoever lets one go proves nothing of its parts.
impl<T: Drop> Drop for Parcel<T> {
    fn drop(self) {
        let Parcel { inner: _ } = self;
    }
}

impl<T> Model for Parcel<T> {
    ghost use Rattle.std.specs.Prelude.{◌≡◌};

    ghost Value = { T };

    ghost coded = { T.code };

    ghost view = { λ p. p.inner.value };
}

impl<T> Parcel<T> {
    /// The value, to be changed where it stands.
    pub fn value_mut(&mut self) -> &mut T
        ensures* writes_back { sem 𝓛 (Lends (the_row T.row) T.row self.entry result (λ x. x)) }
        ensures value { result.now ≡ self.old }
    {
        &mut self.inner
    }

    /// The value, moved out. Its place on the heap is given back.
    pub fn into_inner(self) -> T
        ensures { result ≡ self }
    {
        let Parcel { inner } = self;
        Box::into_inner(inner)
    }
}

impl<T: Drop> Parcel<T> {
    /// Puts a value on the heap. `Starved` comes only when memory runs out; the value is then dropped.
    pub fn new(alloc: Global, value: T) -> Result<Parcel<T>, Starved>
        ensures { IfOk result (λ p. p ≡ value) }
    {
        match Box::new(alloc, value) {
            Ok(inner) => Ok(Parcel { inner }),
            Err(_) => Err(Starved),
        }
    }
}
