use tasks::poll::Poll;

// What one poll of the set below came to, as a `Polled` that may leave its Poll open: what the whole poll ends with, or nothing where an output was parked and the poll
// goes on; and the notices and turns.
#[derive(Clone, Copy)]
pub struct Rounded<O> {
    pub poll: Option<Poll<Option<O>>>,
    pub notices: u32,
    pub turns: u32,
}
