ghost use Rattle.std.specs.Prelude.{◌≡◌, ℕ};

// A ticket: an owner, and a number of the owner's.
pub type Ticket = (u32, u32);

// A value that bears a ticket. Each type says in three lines where its own lies: no derive of std writes that, and no impl may
// come from a macro of this repository.
pub trait Ticketed {
    ghost bearing: { Self → ℕ × ℕ };

    fn ticket(&self) -> (u32, u32)
        ensures { result ≡ bearing self.now };
}

impl Ticketed for (u32, u32) {
    ghost bearing = { λ t. t };

    fn ticket(&self) -> (u32, u32) {
        *self
    }
}
