// What a script's commands print.
ghost use Rattle.std.specs.Prelude.{◌≡◌, ℕ, List, ◌++◌, IfOk, string_bytes, codes, decimal, OnOk};
ghost use Rattle.std.specs.List.{flat_map};
ghost use Rattle.geometry.specs.Words.{line_of};
ghost use Rattle.script.specs.Report.{entry_of, ByNumber, label_line, Listing, line_after, answers_line, opened_line, link_line, links_line, node_line, slot_entry};

use geometry::{Label, Rect, Refusal};
use index::Slot;
use listing::Found;
use std::alloc::{AllocError, Global};

// A distance, as a row shows it. Each number type has an impl of its own: a pair has no Display, and an impl for every
// type with Display would overlap with that of the pair.
pub trait Shown {
    ghost shown: { Self → List ℕ };

    fn text(&self, heap: Global) -> Result<String, AllocError>
        ensures { IfOk result (λ s. string_bytes s ≡ shown self.now) };
}

impl Shown for u64 {
    ghost shown = { decimal };

    fn text(&self, heap: Global) -> Result<String, AllocError> {
        format!(in heap; "{self}")
    }
}

impl Shown for u32 {
    ghost shown = { decimal };

    fn text(&self, heap: Global) -> Result<String, AllocError> {
        format!(in heap; "{self}")
    }
}

impl Shown for (u32, u32) {
    ghost shown = { λ d. decimal d.0 ++ (codes "," ++ decimal d.1) };

    fn text(&self, heap: Global) -> Result<String, AllocError> {
        let (larger, smaller) = *self;
        format!(in heap; "{larger},{smaller}")
    }
}

// A label found, by its number and its distance.
fn entry<D: Shown>(heap: Global, found: &Found<D>) -> Result<String, AllocError>
    ensures { IfOk result (λ s. string_bytes s ≡ entry_of D.shown found.now) }
{
    let number = found.number;
    let distance = found.distance.text(heap)?;
    format!(in heap; " {number}:{distance}")
}

// A measure's name, and then the labels found.
pub fn row<D: Shown>(heap: Global, name: &str, found: &[Found<D>]) -> Result<String, AllocError>
    ensures { IfOk result (λ s. string_bytes s ≡ name.now ++ flat_map (entry_of D.shown) found.now) }
{
    let mut row = String::from_str(heap, name)?;
    for f in found {
        row.push_str(entry(heap, f)?.as_str())?;
    }
    Ok(row)
}

// The labels' numbers and places, by number. Entries are what the lines are made of, and are compared in all their
// fields: sorted labels would be taken apart for each line.
fn by_number(heap: Global, labels: &[Label]) -> Result<Vec<(u32, i32, i32)>, AllocError>
    ensures { IfOk result (λ v. ByNumber labels.now v.items) }
{
    let mut listed: Vec<(u32, i32, i32)> = labels
        .iter()
        .map(|l| (l.number(), l.place().x(), l.place().y()))
        .collect(heap)?;
    listed.sort_unstable();
    Ok(listed)
}

// The line of a label. It is made here alone, as are those of nodes and slots, so that these types have no Display.
fn label_line(heap: Global, number: u32, x: i32, y: i32) -> Result<String, AllocError>
    ensures { IfOk result (λ s. string_bytes s ≡ label_line (number, x, y)) }
{
    format!(in heap; "label {number} {x} {y}")
}

// A line for each label, by number.
pub fn label_lines(heap: Global, labels: &[Label]) -> Result<String, AllocError>
    ensures { IfOk result (λ s. Listing labels.now (string_bytes s)) }
{
    let listed = by_number(heap, labels)?;
    if listed.is_empty() {
        return String::from_str(heap, "none");
    }
    let mut lines = String::new(heap);
    for (number, x, y) in listed.as_slice() {
        push_line(&mut lines, label_line(heap, *number, *x, *y)?.as_str())?;
    }
    Ok(lines)
}

// One line more.
pub fn push_line(lines: &mut String, line: &str) -> Result<(), AllocError>
    ensures { OnOk result (string_bytes lines.new ≡ line_after (string_bytes lines.old) line.now) }
{
    if !lines.is_empty() {
        lines.push('\n')?;
    }
    lines.push_str(line)
}

// A node's number, its kind and its box.
pub fn node_line(
    heap: Global,
    number: usize,
    inner: bool,
    around: Rect,
) -> Result<String, AllocError>
    ensures { IfOk result (λ s. string_bytes s ≡ node_line number inner around) }
{
    let kind = if inner { "inner" } else { "leaf" };
    let west = around.west();
    let south = around.south();
    let east = around.east();
    let north = around.north();
    format!(in heap; "node {number} {kind} {west} {south} {east} {north}")
}

// Slot `j` of a node behind a blank, or nothing where it is empty.
pub fn slot_entry(heap: Global, j: usize, slot: Slot) -> Result<String, AllocError>
    ensures { IfOk result (λ s. string_bytes s ≡ slot_entry j slot) }
{
    match slot {
        Slot::Empty => Ok(String::new(heap)),
        Slot::Holds(label) => {
            let number = label.number();
            let x = label.place().x();
            let y = label.place().y();
            format!(in heap; " {j}=label:{number}:{x}:{y}")
        }
        Slot::Leads(around, node) => {
            let west = around.west();
            let south = around.south();
            let east = around.east();
            let north = around.north();
            format!(in heap; " {j}=node:{node}:{west}:{south}:{east}:{north}")
        }
    }
}

// The line of a refusal.
pub fn refused(heap: Global, refusal: Refusal) -> Result<String, AllocError>
    ensures { IfOk result (λ s. string_bytes s ≡ line_of refusal) }
{
    format!(in heap; "{refusal}")
}

// The numbers of an answer.
pub fn answers_line(heap: Global, numbers: &[u32]) -> Result<String, AllocError>
    ensures { IfOk result (λ s. string_bytes s ≡ answers_line numbers.now) }
{
    if numbers.is_empty() {
        return String::from_str(heap, "answers none");
    }
    let mut line = String::from_str(heap, "answers")?;
    for n in numbers {
        line.push_str(format!(in heap; " {n}")?.as_str())?;
    }
    Ok(line)
}

// How many nodes a call opened.
pub fn opened_line(heap: Global, opened: u32) -> Result<String, AllocError>
    ensures { IfOk result (λ s. string_bytes s ≡ opened_line opened) }
{
    format!(in heap; "opened {opened}")
}

// Two labels that are linked.
pub fn link_line(heap: Global, p: u32, q: u32) -> Result<String, AllocError>
    ensures { IfOk result (λ s. string_bytes s ≡ link_line p q) }
{
    format!(in heap; "link {p} {q}")
}

// How many links there are.
pub fn links_line(heap: Global, n: usize) -> Result<String, AllocError>
    ensures { IfOk result (λ s. string_bytes s ≡ links_line n) }
{
    format!(in heap; "{n} links")
}
