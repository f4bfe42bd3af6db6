// Plays recordings: every run on a set of its own.
ghost use Rattle.std.specs.Prelude.{min, ◌≡◌, IfOk, vec_len};

use crate::input::{Input, Numbered};
use crate::tally::{Difference, Report, Tally};
use ordered::futures_ordered_bounded::FuturesOrderedBounded;
use recordings::call::Call;
use recordings::line;
use recordings::line::Line;
use recordings::make::{Kind, Make};
use recordings::reason::Reason;
use reruns::answer;
use reruns::answer::Answer;
use reruns::recorded::{NoSet, Recorded};
use sets::futures_unordered_bounded::FuturesUnorderedBounded;
use slots::slot::Slot;
use std::alloc::{AllocError, Global};
use std::fs::File;
use std::io::{BufRead, BufReader, Lines};
use std::str::SplitWhitespace;
use std::{env, io};
use tasks::countdown::Countdown;
use tasks::either::Either;
use tasks::fault::Refused;
use tasks::letter::{Delivery, Letter};
use tasks::order_wrapper::OrderWrapper;
use wakes::wake_record::WakeRecord;

// No set uses more than 65,536 slots, records or parking places, so in a longer memory it answers alike.
const MOST_MEMORY: usize = 65537;

type Task = Either<Countdown, Letter>;

type Output = Either<(u32, u32), Delivery>;

// The make line that ends a run, and what it says. The last run has none.
type Next = Option<(Numbered, Result<Make, Reason>)>;

// A recording that is played: what is left of it, and what was found.
#[derive(Drop)]
struct Player<'r, B> {
    input: Input<B>,
    report: Report<'r>,
}

fn memory<T: Copy>(heap: Global, fresh: T, len: usize) -> Result<Vec<T>, AllocError>
    ensures { IfOk result (λ v. vec_len v ≡ min len 65537) }
{
    vec![in heap; fresh; len.min(MOST_MEMORY)]
}

impl Report<'_> {
    // Compares an answer with the recording's.
    fn compare(
        &mut self,
        line: &Numbered,
        call: Call,
        expected: SplitWhitespace<'_>,
        answer: Answer,
    ) -> io::Result<()> {
        let got = answer.to_string(self.rt.alloc())?;
        if !expected.eq(got.as_str().split_whitespace()) {
            self.differs(line, Difference::OtherAnswer(got.as_str()))?;
        }
        if let Answer::Refused(Refused { fault: _, input }) = answer {
            if !answer::is_own(call, input) {
                self.differs(line, Difference::OtherInput)?;
            }
        }
        Ok(())
    }

    // Carries out the call of a line. A make line ends the run.
    fn serve<S: Recorded>(
        &mut self,
        line: &Numbered,
        set: &mut S,
        post: &mut Vec<u64>,
    ) -> io::Result<Option<Result<Make, Reason>>> {
        let mut words = line.text.as_str().split_whitespace();
        let call = match line::read(&mut words, post) {
            None => return Ok(None),
            Some(Line::Make(make)) => return Ok(Some(make)),
            Some(Line::Call(call)) => call,
        };
        match call.and_then(|call| Ok((call, set.carry_out(call, post.as_slice())?))) {
            Ok((call, answer)) => {
                self.tally.count_call();
                self.compare(line, call, words, answer)?;
            }
            Err(reason) => self.differs(line, Difference::Unreadable(reason))?,
        }
        Ok(None)
    }
}

impl<B: BufRead + Drop> Player<'_, B> {
    // Carries out the calls on one set, up to the next make line.
    fn follow<S: Recorded>(&mut self, set: &mut S) -> io::Result<Next> {
        let mut post = Vec::new(self.report.rt.alloc());
        for line in self.input.by_ref() {
            let line = line?;
            if let Some(make) = self.report.serve(&line, set, &mut post)? {
                return Ok(Some((line, make)));
            }
        }
        Ok(None)
    }

    // Passes over the lines of a run of a kind that is not delivered yet, whatever they say.
    fn skip(&mut self) -> io::Result<Next> {
        let mut post = Vec::new(self.report.rt.alloc());
        for line in self.input.by_ref() {
            let line = line?;
            let mut words = line.text.as_str().split_whitespace();
            if let Some(Line::Make(make)) = line::read(&mut words, &mut post) {
                return Ok(Some((line, make)));
            }
        }
        Ok(None)
    }

    // Where no set can be made, there is none up to the next make line.
    fn without_set(&mut self, line: Numbered, reason: Reason) -> io::Result<Next> {
        self.report.differs(&line, Difference::Unreadable(reason))?;
        drop(line);
        self.follow(&mut NoSet)
    }

    // A run of a bounded unordered set. The desk, the benchmark and the tests make theirs alike, in memory of their own: where
    // there is none, each goes on in another way, and the desk alone tells the fault at the end.
    fn bounded(&mut self, line: Numbered, make: Make) -> io::Result<Next> {
        let heap = self.report.rt.alloc();
        let slot = Slot::NextFree(0);
        let record = WakeRecord::default();
        let (Ok(mut slots), Ok(mut records)) = (
            memory(heap, slot, make.slots),
            memory(heap, record, make.wakes),
        ) else {
            return self.without_set(line, Reason::NoMemory);
        };
        drop(line);
        self.report.tally.count_run();
        let mut set = FuturesUnorderedBounded::new(
            make.name,
            slots.as_mut_slice(),
            records.as_mut_slice(),
        );
        let next = self.follow(&mut set);
        let _ = set
            .take_apart()
            .unwrap_or_else(|refused| refused.input.abandon());
        next
    }

    // A run of a bounded ordered set. Its make line has the key `parking`, as each of its kind.
    fn ordered(&mut self, line: Numbered, make: Make) -> io::Result<Next> {
        let heap = self.report.rt.alloc();
        let slot = Slot::NextFree(0);
        let record = WakeRecord::default();
        let place: Option<OrderWrapper<Output>> = None;
        let (Ok(mut slots), Ok(mut records), Ok(mut parking)) = (
            memory(heap, slot, make.slots),
            memory(heap, record, make.wakes),
            memory(heap, place, make.parking.unwrap_or(0)),
        ) else {
            return self.without_set(line, Reason::NoMemory);
        };
        drop(line);
        self.report.tally.count_run();
        let mut set: FuturesOrderedBounded<'_, Task> = FuturesOrderedBounded::new(
            make.name,
            slots.as_mut_slice(),
            records.as_mut_slice(),
            parking.as_mut_slice(),
        );
        let next = self.follow(&mut set);
        let _ = set
            .take_apart()
            .unwrap_or_else(|refused| refused.input.abandon());
        next
    }

    // The run that a make line begins. Each kind of set and merge is a case of its own. The line goes before the run's own lines
    // are read: it can be long.
    fn run(&mut self, line: Numbered, make: Result<Make, Reason>) -> io::Result<Next> {
        match make {
            Ok(make) => match make.kind {
                Kind::Bounded => self.bounded(line, make),
                Kind::Ordered => self.ordered(line, make),
                other => {
                    drop(line);
                    self.report.tally.count_skipped(other);
                    self.skip()
                }
            },
            Err(reason) => self.without_set(line, reason),
        }
    }
}

// All runs of the input; how many differences there are.
fn play<B: BufRead + Drop>(rt: &HostRuntime, lines: Lines<B>) -> io::Result<u64> {
    let mut player = Player {
        input: Input::new(rt.alloc(), lines),
        report: Report {
            rt,
            tally: Tally::default(),
        },
    };
    let mut next = player.follow(&mut NoSet)?;
    // A run takes lines of its own, so no iterator over them gives the runs. A loop while there is a next run would need a
    // clause on five functions, how many lines are left, that says nothing else of them.
    for _ in 0..u64::MAX {
        let Some((line, make)) = next else {
            break;
        };
        next = player.run(line, make)?;
    }
    player.report.show()?;
    Ok(player.report.tally.differences())
}

// Plays the file that the first argument names, or the standard input.
pub fn replay(rt: &HostRuntime) -> io::Result<u64> {
    let heap = rt.alloc();
    match env::args(rt)?.nth(1) {
        Some(path) => {
            let file = File::open(rt, path.as_str())?;
            play(rt, BufReader::new(heap, file)?.lines(heap))
        }
        None => play(rt, BufReader::new(heap, rt.stdin())?.lines(heap)),
    }
}
