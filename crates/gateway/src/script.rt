// The day's script: one command to a line.
ghost use Rattle.std.specs.Prelude.{◌≡◌, ◌<◌, ◌≤◌, IfSome};
ghost use Rattle.gateway.specs.Script.{Good, silent};

use tasks::letter::Letter;

// The desk's post has that many words, and an order waits for one of them.
pub const PLACES: usize = 64;

// Every waiting order has a token out, and a set has at most that many.
const MOST_SLOTS: u64 = 65535;

// What the desk posts itself where no reply came. By the rules of the script no reply can be this word.
pub const NO_ANSWER: u64 = u64::MAX;

#[derive(Clone, Copy)]
pub enum Command {
    Open { name: u32, slots: usize },
    Order(Letter),
    Reply { place: u64, word: u64 },
    Poll,
    Held,
    End,
}

// Whether a line says nothing: it is blank, or a comment.
pub fn is_silent(line: &str) -> bool
    ensures { result ≡ silent line.now }
{
    let text = line.trim_start();
    text.is_empty() || text.starts_with('#')
}

fn small(word: Option<&str>) -> Option<u32> {
    word?.parse::<u32>().ok()
}

// A number up to `most`.
fn bounded(word: Option<&str>, most: u64) -> Option<u64>
    ensures { IfSome result (λ n. n ≤ most) }
{
    word?.parse::<u64>().ok().filter(|n| *n <= most)
}

fn place(word: Option<&str>) -> Option<u64>
    ensures { IfSome result (λ n. n < 64) }
{
    bounded(word, PLACES as u64 - 1)
}

// A word that can be a reply.
fn reply_word(word: Option<&str>) -> Option<u64>
    ensures { IfSome result (λ n. (0 < n) × (n < 18446744073709551615)) }
{
    bounded(word, NO_ANSWER - 1).filter(|n| *n != 0)
}

// The command of a line, where it can be read.
pub fn parse(line: &str) -> Option<Command>
    ensures { IfSome result Good }
{
    let mut words = line.split_whitespace();
    let command = match words.next()? {
        "open" => {
            let name = small(words.next())?;
            Command::Open {
                name,
                slots: bounded(words.next(), MOST_SLOTS)? as usize,
            }
        }
        "order" => {
            let ticket = (small(words.next())?, small(words.next())?);
            Command::Order(Letter {
                ticket,
                place: place(words.next())?,
            })
        }
        "reply" => {
            let place = place(words.next())?;
            Command::Reply {
                place,
                word: reply_word(words.next())?,
            }
        }
        "poll" => Command::Poll,
        "held" => Command::Held,
        "end" => Command::End,
        _ => return None,
    };
    words.next().is_none().then_some(command)
}

// How the desk begins: the set's name, its slots, and how many lines of the script are done with.
#[derive(Clone, Copy)]
pub struct Opening {
    pub name: u32,
    pub slots: usize,
    pub lines: usize,
}

// Where no good `open` comes first.
impl Default for Opening {
    ghost is_default = { λ o. o ≡ record { name = 1; slots = 8; lines = 0 } };

    fn default() -> Opening {
        Opening {
            name: 1,
            slots: 8,
            lines: 0,
        }
    }
}

// The opening that the first command asks for, where it is a good `open`.
pub fn first_opening(lines: &[String]) -> Option<Opening>
    ensures { IfSome result (λ o. o.slots ≤ 65535) }
{
    let (at, line) = lines
        .iter()
        .enumerate()
        .find(|(_, line)| !is_silent(line.as_str()))?;
    let Command::Open { name, slots } = parse(line.as_str())? else {
        return None;
    };
    Some(Opening {
        name,
        slots,
        lines: at.saturating_add(1),
    })
}
