ghost use Rattle.std.specs.Prelude.{◌≡◌, map};
ghost use Rattle.tasks.specs.Orders.{wrapper_flipped, option_flipped};

use crate::order_wrapper::{OrderWrapper, flip};

// A value in which the top bit of an index can be flipped.
pub trait Flip {
    ghost flipped: { Self → Self };

    fn flipped(self) -> Self
        ensures { result ≡ flipped self };
}

impl<T> Flip for OrderWrapper<T> {
    ghost flipped = { wrapper_flipped };

    fn flipped(self) -> OrderWrapper<T> {
        let OrderWrapper { data, index } = self;
        OrderWrapper {
            data,
            index: flip(index),
        }
    }
}

impl<T: Flip> Flip for Option<T> {
    ghost flipped = { option_flipped T.Flip.flipped };

    fn flipped(self) -> Option<T> {
        self.map(T::flipped)
    }
}

// Flips every value.
pub fn flip_each<T: Flip + Copy>(values: &mut [T])
    ensures { values.new ≡ map T.Flip.flipped values.old }
{
    for value in values.iter_mut() {
        *value = value.flipped();
    }
}
