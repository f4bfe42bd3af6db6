// The lines that begin a run.
ghost use Rattle.std.specs.Prelude.{◌≡◌, is_some, Some, None, IfOk, MatchResult, OnOk};
ghost use Rattle.recordings.specs.Makes.{has_first, has_parking, KeyPut, MadeOf};
ghost use Rattle.recordings.specs.Words.{Named, kind_name, key_name};

use crate::reason::Reason;
use crate::words;
use std::fmt;
use std::str::{FromStr, SplitWhitespace};

// The kinds of set and merge.
#[derive(Clone, Copy)]
pub enum Kind {
    Bounded,
    Ordered,
    Growing,
    GrowingOrdered,
    Merge,
    GrowingMerge,
}

// What is to be made. Only some kinds have the keys `first` and `parking`.
#[derive(Clone, Copy)]
pub struct Make {
    pub kind: Kind,
    pub name: u32,
    pub first: Option<usize>,
    pub slots: usize,
    pub wakes: usize,
    pub parking: Option<usize>,
}

// The keys that were read so far.
#[derive(Clone, Copy, Default)]
struct Keys {
    name: Option<u32>,
    first: Option<usize>,
    slots: Option<usize>,
    wakes: Option<usize>,
    parking: Option<usize>,
}

#[derive(Clone, Copy)]
enum Key {
    Name,
    First,
    Slots,
    Wakes,
    Parking,
}

impl Kind {
    fn has_first(self) -> bool
        ensures { result ≡ has_first self }
    {
        matches!(self, Kind::Growing | Kind::GrowingOrdered)
    }

    fn has_parking(self) -> bool
        ensures { result ≡ has_parking self }
    {
        matches!(self, Kind::Ordered | Kind::GrowingOrdered)
    }
}

impl FromStr for Kind {
    type Err = Reason;

    ghost from_str_gives = { Named kind_name };

    fn from_str(name: &str) -> Result<Kind, Reason> {
        match name {
            "bounded" => Ok(Kind::Bounded),
            "ordered" => Ok(Kind::Ordered),
            "growing" => Ok(Kind::Growing),
            "growing-ordered" => Ok(Kind::GrowingOrdered),
            "merge" => Ok(Kind::Merge),
            "growing-merge" => Ok(Kind::GrowingMerge),
            _ => Err(Reason::UnknownKind),
        }
    }
}

// The names stand in both directions; one table for both would have to be searched.
impl fmt::Display for Kind {
    ghost output = { λ k. Some (kind_name k) };

    fn fmt<W: fmt::Write>(&self, f: &mut fmt::Formatter<W>) -> fmt::Result {
        f.write_str(match self {
            Kind::Bounded => "bounded",
            Kind::Ordered => "ordered",
            Kind::Growing => "growing",
            Kind::GrowingOrdered => "growing-ordered",
            Kind::Merge => "merge",
            Kind::GrowingMerge => "growing-merge",
        })
    }
}

impl FromStr for Key {
    type Err = Reason;

    ghost from_str_gives = { Named key_name };

    fn from_str(name: &str) -> Result<Key, Reason> {
        match name {
            "name" => Ok(Key::Name),
            "first" => Ok(Key::First),
            "slots" => Ok(Key::Slots),
            "wakes" => Ok(Key::Wakes),
            "parking" => Ok(Key::Parking),
            _ => Err(Reason::UnknownKey),
        }
    }
}

// Writes a key down, once.
fn put<T: Copy>(key: &mut Option<T>, value: T) -> Result<(), Reason>
    ensures { MatchResult result (λ _. (key.old ≡ None) × (key.new ≡ Some value)) (λ _. key.new ≡ key.old) }
{
    if key.is_some() {
        return Err(Reason::RepeatedKey);
    }
    *key = Some(value);
    Ok(())
}

// Writes down what stands behind a key.
fn put_key(keys: &mut Keys, key: Key, text: &str) -> Result<(), Reason>
    ensures { OnOk result (KeyPut key text.now keys.old keys.new) }
{
    match key {
        Key::Name => put(&mut keys.name, words::number(text)?),
        Key::First => put(&mut keys.first, words::number(text)?),
        Key::Slots => put(&mut keys.slots, words::number(text)?),
        Key::Wakes => put(&mut keys.wakes, words::number(text)?),
        Key::Parking => put(&mut keys.parking, words::number(text)?),
    }
}

// Reads one `key=value`.
fn read_key(keys: &mut Keys, word: &str) -> Result<(), Reason> {
    let (key, value) = word.split_once('=').ok_or(Reason::UnknownKey)?;
    put_key(keys, key.parse()?, value)
}

fn read_keys(words: &mut SplitWhitespace<'_>) -> Result<Keys, Reason> {
    let mut keys = Keys::default();
    for word in words {
        read_key(&mut keys, word)?;
    }
    Ok(keys)
}

// A key that only some kinds have.
fn needed_if(has: bool, key: Option<usize>) -> Result<Option<usize>, Reason>
    ensures { IfOk result (λ k. (k ≡ key) × (is_some k ≡ has)) }
{
    match (has, key) {
        (true, None) => Err(Reason::MissingKey),
        (false, Some(_)) => Err(Reason::UnknownKey),
        _ => Ok(key),
    }
}

// What a kind is made of: all its keys, and no other.
fn make_of(kind: Kind, keys: Keys) -> Result<Make, Reason>
    ensures { IfOk result (λ m. MadeOf kind keys m) }
{
    Ok(Make {
        kind,
        name: keys.name.ok_or(Reason::MissingKey)?,
        first: needed_if(kind.has_first(), keys.first)?,
        slots: keys.slots.ok_or(Reason::MissingKey)?,
        wakes: keys.wakes.ok_or(Reason::MissingKey)?,
        parking: needed_if(kind.has_parking(), keys.parking)?,
    })
}

// What stands behind the word `make`.
pub fn read_make(words: &mut SplitWhitespace<'_>) -> Result<Make, Reason> {
    let kind = words.next().ok_or(Reason::MissingWord)?.parse()?;
    make_of(kind, read_keys(words)?)
}
