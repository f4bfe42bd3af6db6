ghost use Rattle.std.specs.Prelude.{◌≡◌};

// A token for one slot of one set, by the set's name and the slot's address. It is neither Copy nor Drop: it has to
// come back to its set, by a wake or a drop.
pub struct Waker {
    name: u32,
    address: usize,
}

// The two numbers of a token, as it crosses to foreign code and back.
#[derive(Clone, Copy, PartialEq, Debug)]
pub struct RawWaker {
    pub name: u32,
    pub address: usize,
}

impl Waker {
    // The token of these two numbers. Whoever makes one answers for it: a set refuses those that it can tell. It has
    // Rust's name for this and is no `From`, so that no `into` makes a token unseen.
    pub fn from_raw(raw: RawWaker) -> Waker
        ensures { result ≡ record { name = raw.name; address = raw.address } }
    {
        Waker {
            name: raw.name,
            address: raw.address,
        }
    }

    // The token's two numbers. The token is gone, and is still owed to its set: that too has to be seen where it is written.
    pub fn into_raw(self) -> RawWaker
        ensures { result ≡ record { name = self.name; address = self.address } }
    {
        let Waker { name, address } = self;
        RawWaker { name, address }
    }

    pub fn name(&self) -> u32
        ensures { result ≡ self.now.name }
    {
        self.name
    }

    pub fn address(&self) -> usize
        ensures { result ≡ self.now.address }
    {
        self.address
    }
}
