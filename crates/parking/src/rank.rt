ghost use Rattle.std.specs.Prelude.{◌≡◌, ℕ, nat_lt};
ghost use Rattle.parking.specs.Places.{place_rank};

use tasks::order_wrapper::OrderWrapper;

// A value that has a rank. Two values may have the same. `Ord` is no plainer: outputs need not be comparable, and by its
// laws two values that tie would be equal.
pub trait Rank {
    ghost rank: { Self → ℕ };

    fn is_below(&self, other: &Self) -> bool
        ensures { result ≡ nat_lt (rank self.now) (rank other.now) };
}

impl<E: Rank> Rank for Option<E> {
    ghost rank = { place_rank E.Rank.rank };

    fn is_below(&self, other: &Option<E>) -> bool {
        match (self, other) {
            (Some(a), Some(b)) => a.is_below(b),
            (None, Some(_)) => true,
            (_, None) => false,
        }
    }
}

// What waits for its turn ranks by its index.
impl<O> Rank for OrderWrapper<O> {
    ghost rank = { λ w. w.index };

    fn is_below(&self, other: &OrderWrapper<O>) -> bool {
        self.index < other.index
    }
}
