// What was counted, and what is printed of it.
ghost use Rattle.std.specs.Prelude.{◌≡◌, nat_lt};
ghost use Rattle.replay.specs.Tallies.{one_run, one_call, one_difference, one_skipped};

use crate::input::Numbered;
use recordings::line;
use recordings::make::Kind;
use recordings::reason::Reason;
use std::io;

// Only the first differences are printed.
const MOST_PRINTED: u64 = 20;

// All kinds, in the order in which they are shown.
const KINDS: [Kind; 6] = [
    Kind::Bounded,
    Kind::Ordered,
    Kind::Growing,
    Kind::GrowingOrdered,
    Kind::Merge,
    Kind::GrowingMerge,
];

// Of the runs that were skipped there is a count for each kind, in an array by kind: a map would have to be allocated, and
// that can fail where a run is counted.
#[derive(Clone, Copy, Default)]
pub struct Tally {
    runs: u64,
    calls: u64,
    differences: u64,
    skipped: [u64; 6],
}

impl Tally {
    pub fn differences(&self) -> u64
        ensures { result ≡ self.now.differences }
    {
        self.differences
    }

    pub fn count_run(&mut self)
        ensures { self.new ≡ one_run self.old }
    {
        self.runs = self.runs.saturating_add(1);
    }

    pub fn count_call(&mut self)
        ensures { self.new ≡ one_call self.old }
    {
        self.calls = self.calls.saturating_add(1);
    }

    // Counts a run of a kind that is not delivered.
    pub fn count_skipped(&mut self, kind: Kind)
        ensures { self.new ≡ one_skipped kind self.old }
    {
        if !matches!(kind, Kind::Bounded | Kind::Ordered) {
            let place = kind as usize;
            self.skipped[place] = self.skipped[place].saturating_add(1);
        }
    }

    // Counts a difference; whether it is to be printed.
    fn count_difference(&mut self) -> bool
        ensures printed { result ≡ nat_lt self.old.differences 20 }
        ensures counted { self.new ≡ one_difference self.old }
    {
        let printed = self.differences < MOST_PRINTED;
        self.differences = self.differences.saturating_add(1);
        printed
    }
}

// What is not as the recording has it.
#[derive(Clone, Copy)]
pub enum Difference<'a> {
    // the line is no call
    Unreadable(Reason),
    // the call has this answer, and the recording another
    OtherAnswer(&'a str),
    // a refused call hands back another input than its own
    OtherInput,
}

// What was counted so far, and where it is printed.
#[derive(Drop)]
pub struct Report<'r> {
    pub rt: &'r HostRuntime,
    pub tally: Tally,
}

impl Report<'_> {
    // Counts a difference in a line, and prints it if it is one of the first.
    pub fn differs(&mut self, line: &Numbered, difference: Difference<'_>) -> io::Result<()>
        ensures { self.new.tally ≡ one_difference self.old.tally }
    {
        if !self.tally.count_difference() {
            return Ok(());
        }
        let rt = self.rt;
        let number = line.number;
        let text = line.text.as_str();
        match difference {
            Difference::Unreadable(reason) => {
                let text = text.trim();
                println!(rt; "line {number}: {text}: {reason}")
            }
            Difference::OtherAnswer(got) => {
                let (call, answer) = line::parts(rt.alloc(), text)?;
                println!(rt; "line {number}: {call}: expected '{answer}', got '{got}'")
            }
            Difference::OtherInput => {
                let (call, _) = line::parts(rt.alloc(), text)?;
                println!(rt; "line {number}: {call}: handed back another input")
            }
        }
    }

    // The runs of the kinds that are not delivered yet, where there are any.
    fn show_skipped(&self) -> io::Result<()> {
        let rt = self.rt;
        let counts = self.tally.skipped;
        let mut skipped = KINDS
            .iter()
            .map(|kind| (*kind, counts[*kind as usize]))
            .filter(|(_, runs)| *runs > 0);
        let Some((kind, runs)) = skipped.next() else {
            return Ok(());
        };
        print!(rt; "skipped: {runs} runs of {kind}")?;
        for (kind, runs) in skipped {
            print!(rt; ", {runs} runs of {kind}")?;
        }
        println!(rt; "")
    }

    // The last lines.
    pub fn show(&self) -> io::Result<()> {
        let rt = self.rt;
        let Tally {
            runs,
            calls,
            differences,
            skipped: _,
        } = self.tally;
        if differences > MOST_PRINTED {
            let more = differences - MOST_PRINTED;
            println!(rt; "and {more} more differences")?;
        }
        self.show_skipped()?;
        println!(rt; "{runs} runs, {calls} calls, {differences} differences")
    }
}
