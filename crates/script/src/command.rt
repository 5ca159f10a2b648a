// The commands of a script.
ghost use Rattle.std.specs.Prelude.{◌≡◌, length, take, drop, Some, codes};
ghost use Rattle.std.specs.Option.{SomeIff};
ghost use Rattle.script.specs.Commands.{Wholes, numbers_of, Own, own_of, Owned, Told, placed_of, label_of, plain_of, grid_of, image_of, nearest_of, mutual_of, linked_of, links_of, add_of, withdraw_of, Measured, Limited, Parsed, named};

use crate::number::{to_i32, to_u32, whole};
use std::error::Error;
use std::fmt;
use std::str::FromStr;

// A word that is no name of what is looked for.
#[derive(Clone, Copy, Debug, PartialEq, Eq)]
pub struct UnknownName;

impl fmt::Display for UnknownName {
    ghost output = { λ _. Some (codes "no such name") };

    fn fmt<W: fmt::Write>(&self, f: &mut fmt::Formatter<W>) -> fmt::Result {
        f.write_str("no such name")
    }
}

impl Error for UnknownName {}

// What the word is the name of, in a list of names.
fn named<K: Copy>(names: &[(&str, K)], word: &str) -> Option<K>
    ensures { result ≡ named names.now word.now }
{
    let (_, kind) = names.iter().copied().find(|(name, _)| *name == word)?;
    Some(kind)
}

// A measure, by its name.
#[derive(Clone, Copy, Debug, PartialEq, Eq)]
pub enum MeasureKind {
    Straight,
    Street,
    Tile,
}

// The measures' names.
const MEASURES: [(&str, MeasureKind); 3] = [
    ("straight", MeasureKind::Straight),
    ("street", MeasureKind::Street),
    ("tile", MeasureKind::Tile),
];

impl FromStr for MeasureKind {
    type Err = UnknownName;

    ghost use Rattle.script.specs.Commands.{Named, kind_word};

    ghost from_str_gives = { Named kind_word };

    fn from_str(word: &str) -> Result<MeasureKind, UnknownName> {
        named(&MEASURES, word).ok_or(UnknownName)
    }
}

// A list that a call is lent.
#[derive(Clone, Copy, Debug, PartialEq, Eq)]
pub enum WorkList {
    // What an image's numbers are checked with.
    Numbers,
    // What a query answers into.
    Answers,
    // What a query works with.
    Work,
}

// The lists' names.
const LISTS: [(&str, WorkList); 3] = [
    ("numbers", WorkList::Numbers),
    ("answers", WorkList::Answers),
    ("work", WorkList::Work),
];

impl FromStr for WorkList {
    type Err = UnknownName;

    ghost use Rattle.script.specs.Commands.{Named, list_word};

    ghost from_str_gives = { Named list_word };

    fn from_str(word: &str) -> Result<WorkList, UnknownName> {
        named(&LISTS, word).ok_or(UnknownName)
    }
}

// What a query asks.
#[derive(Clone, Copy, Debug, PartialEq, Eq)]
pub enum Query {
    // Lists the labels among the `k` nearest to a place, which may be that of the label `own`.
    Nearest {
        x: i32,
        y: i32,
        k: u32,
        own: Option<u32>,
    },
    // Lists the labels among the `k1` nearest to a place that have it among their `k2` nearest.
    Mutual {
        x: i32,
        y: i32,
        k1: u32,
        k2: u32,
        own: Option<u32>,
    },
    // Lists the labels that are linked to a label.
    Linked {
        number: u32,
        k1: u32,
        k2: u32,
    },
    // Lists the links of all labels.
    Links {
        k1: u32,
        k2: u32,
    },
}

// What a line of a script asks for.
#[derive(Clone, Copy, Debug, PartialEq, Eq)]
pub enum Command<'a> {
    // Adds a label to the list.
    Label {
        number: u32,
        x: i32,
        y: i32,
    },
    // Lists the labels among the `k` nearest to a place, by each measure.
    Plain {
        x: i32,
        y: i32,
        k: u32,
    },
    // Makes a lattice the plan at hand.
    Grid {
        rows: u32,
        columns: u32,
        step: u32,
        x: i32,
        y: i32,
        first: u32,
    },
    // Makes the image in a file the plan at hand.
    Image {
        path: &'a str,
    },
    // Lists the labels by number.
    Labels,
    // Lists the nodes of the plan at hand.
    Nodes,
    // Asks who is near to whom.
    Ask(Query),
    // Sets the measure of the queries.
    Measure {
        kind: MeasureKind,
    },
    // Sets how many places a list has.
    Limit {
        list: WorkList,
        places: u32,
    },
    // Opens an edit over the plan at hand.
    Edit,
    // Adds a label in the edit.
    Add {
        number: u32,
        x: i32,
        y: i32,
    },
    // Withdraws a label in the edit.
    Withdraw {
        number: u32,
    },
    // Drops the edit and all that was done in it.
    Cancel,
    // Keeps what was done in the edit.
    Keep,
}

// The numbers that the words write, where there are `N` words and each is a whole number.
fn wholes<const N: usize>(words: &[&str]) -> Option<[i64; N]>
    ensures { SomeIff result (Wholes N words.now) (numbers_of words.now) }
{
    if words.len() != N {
        return None;
    }
    let mut numbers = [0; N];
    // What is written through a `zip` is not known to a proof, so the words come by `next`.
    let mut rest = words.iter();
    for number in numbers.iter_mut() {
        *number = whole(rest.next()?)?;
    }
    Some(numbers)
}

// The number and the place of a label: NUMBER X Y.
fn placed(words: &[&str]) -> Option<(u32, i32, i32)>
    ensures { SomeIff result (Wholes 3 words.now) (placed_of (numbers_of words.now)) }
{
    let [number, x, y] = wholes::<3>(words)?;
    Some((to_u32(number), to_i32(x), to_i32(y)))
}

// The words after `label`: NUMBER X Y.
fn label<'a>(words: &[&'a str]) -> Option<Command<'a>>
    ensures { SomeIff result (Wholes 3 words.now) (label_of (numbers_of words.now)) }
{
    let (number, x, y) = placed(words)?;
    Some(Command::Label { number, x, y })
}

// The words after `add`: NUMBER X Y.
fn add<'a>(words: &[&'a str]) -> Option<Command<'a>>
    ensures { SomeIff result (Wholes 3 words.now) (add_of (numbers_of words.now)) }
{
    let (number, x, y) = placed(words)?;
    Some(Command::Add { number, x, y })
}

// The word after `withdraw`: NUMBER.
fn withdraw<'a>(words: &[&'a str]) -> Option<Command<'a>>
    ensures { SomeIff result (Wholes 1 words.now) (withdraw_of (numbers_of words.now)) }
{
    let [number] = wholes::<1>(words)?;
    Some(Command::Withdraw {
        number: to_u32(number),
    })
}

// The words after `plain`: X Y K.
fn plain<'a>(words: &[&'a str]) -> Option<Command<'a>>
    ensures { SomeIff result (Wholes 3 words.now) (plain_of (numbers_of words.now)) }
{
    let [x, y, k] = wholes::<3>(words)?;
    Some(Command::Plain {
        x: to_i32(x),
        y: to_i32(y),
        k: to_u32(k),
    })
}

// The words after `lattice`: ROWS COLUMNS STEP X Y FIRST.
fn grid<'a>(words: &[&'a str]) -> Option<Command<'a>>
    ensures { SomeIff result (Wholes 6 words.now) (grid_of (numbers_of words.now)) }
{
    let [rows, columns, step, x, y, first] = wholes::<6>(words)?;
    Some(Command::Grid {
        rows: to_u32(rows),
        columns: to_u32(columns),
        step: to_u32(step),
        x: to_i32(x),
        y: to_i32(y),
        first: to_u32(first),
    })
}

// The word after `image`: PATH.
fn image<'a>(words: &[&'a str]) -> Option<Command<'a>>
    ensures { result ≡ image_of words.now }
{
    match words {
        [path] => Some(Command::Image { path }),
        _ => None,
    }
}

// The number of the label that a place is that of: own NUMBER, or nothing.
// The outer option tells whether the words fit, and the inner whether there is a number.
fn own(words: &[&str]) -> Option<Option<u32>>
    ensures { SomeIff result (Own words.now) (own_of words.now) }
{
    match words {
        [] => Some(None),
        ["own", number] => Some(Some(to_u32(whole(number)?))),
        _ => None,
    }
}

// `N` whole numbers, and then own NUMBER or nothing.
fn owned<const N: usize>(words: &[&str]) -> Option<([i64; N], Option<u32>)>
    ensures { SomeIff result (Owned N words.now) (numbers_of (take N words.now), own_of (drop N words.now)) }
{
    let (front, rest) = words.split_at_checked(N)?;
    let numbers = wholes::<N>(front)?;
    Some((numbers, own(rest)?))
}

// The words after `nearest`: X Y K [own NUMBER].
fn nearest<'a>(words: &[&'a str]) -> Option<Command<'a>>
    ensures { SomeIff result (Owned 3 words.now) (nearest_of words.now) }
{
    let ([x, y, k], own) = owned::<3>(words)?;
    Some(Command::Ask(Query::Nearest {
        x: to_i32(x),
        y: to_i32(y),
        k: to_u32(k),
        own,
    }))
}

// The words after `mutual`: X Y K1 K2 [own NUMBER].
fn mutual<'a>(words: &[&'a str]) -> Option<Command<'a>>
    ensures { SomeIff result (Owned 4 words.now) (mutual_of words.now) }
{
    let ([x, y, k1, k2], own) = owned::<4>(words)?;
    Some(Command::Ask(Query::Mutual {
        x: to_i32(x),
        y: to_i32(y),
        k1: to_u32(k1),
        k2: to_u32(k2),
        own,
    }))
}

// The words after `linked`: NUMBER K1 K2.
fn linked<'a>(words: &[&'a str]) -> Option<Command<'a>>
    ensures { SomeIff result (Wholes 3 words.now) (linked_of (numbers_of words.now)) }
{
    let [number, k1, k2] = wholes::<3>(words)?;
    Some(Command::Ask(Query::Linked {
        number: to_u32(number),
        k1: to_u32(k1),
        k2: to_u32(k2),
    }))
}

// The words after `links`: K1 K2.
fn links<'a>(words: &[&'a str]) -> Option<Command<'a>>
    ensures { SomeIff result (Wholes 2 words.now) (links_of (numbers_of words.now)) }
{
    let [k1, k2] = wholes::<2>(words)?;
    Some(Command::Ask(Query::Links {
        k1: to_u32(k1),
        k2: to_u32(k2),
    }))
}

// The word after `measure`: straight, street or tile.
fn measure<'a>(words: &[&'a str]) -> Option<Command<'a>>
    ensures { Told (Measured words.now) result }
{
    match words {
        [word] => Some(Command::Measure {
            kind: word.parse().ok()?,
        }),
        _ => None,
    }
}

// The words after `limit`: numbers, answers or work, and N.
fn limit<'a>(words: &[&'a str]) -> Option<Command<'a>>
    ensures { Told (Limited words.now) result }
{
    match words {
        [word, rest @ ..] => {
            let list: WorkList = word.parse().ok()?;
            let [places] = wholes::<1>(rest)?;
            Some(Command::Limit {
                list,
                places: to_u32(places),
            })
        }
        _ => None,
    }
}

// A command of one word, where no words are left.
fn alone<'a>(words: &[&'a str], command: Command<'a>) -> Option<Command<'a>>
    ensures { SomeIff result (length words.now ≡ 0) command.entry }
{
    if words.is_empty() {
        Some(command)
    } else {
        None
    }
}

// What is expected where no command's name stands.
const NAMES: &str =
    "label, plain, lattice, image, labels, nodes, nearest, mutual, linked, links, measure, limit, edit, add, withdraw, cancel or keep";

// The command that the words of a line give, or what was expected in their place, in the words in which a script's
// answer says it.
pub fn parse<'a>(words: &[&'a str]) -> Result<Command<'a>, &'static str>
    ensures { Parsed words.now result }
{
    let [name, rest @ ..] = words else {
        return Err(NAMES);
    };
    match *name {
        "label" => label(rest).ok_or("label NUMBER X Y"),
        "plain" => plain(rest).ok_or("plain X Y K"),
        "lattice" => grid(rest).ok_or("lattice ROWS COLUMNS STEP X Y FIRST"),
        "image" => image(rest).ok_or("image PATH"),
        "labels" => alone(rest, Command::Labels).ok_or("labels"),
        "nodes" => alone(rest, Command::Nodes).ok_or("nodes"),
        "nearest" => nearest(rest).ok_or("nearest X Y K [own NUMBER]"),
        "mutual" => mutual(rest).ok_or("mutual X Y K1 K2 [own NUMBER]"),
        "linked" => linked(rest).ok_or("linked NUMBER K1 K2"),
        "links" => links(rest).ok_or("links K1 K2"),
        "measure" => measure(rest).ok_or("measure straight|street|tile"),
        "limit" => limit(rest).ok_or("limit numbers|answers|work N"),
        "edit" => alone(rest, Command::Edit).ok_or("edit"),
        "add" => add(rest).ok_or("add NUMBER X Y"),
        "withdraw" => withdraw(rest).ok_or("withdraw NUMBER"),
        "cancel" => alone(rest, Command::Cancel).ok_or("cancel"),
        "keep" => alone(rest, Command::Keep).ok_or("keep"),
        _ => Err(NAMES),
    }
}
