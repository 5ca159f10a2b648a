ghost use Rattle.std.specs.Prelude.{◌≡◌, ◌++◌, IfOk, string_bytes};
ghost use Rattle.std.specs.List.{flat_map};
ghost use Rattle.geometry.specs.Plane.{place_at};
ghost use Rattle.listing.specs.Neighbours.{listing};
ghost use Rattle.script.specs.Report.{entry_of};

use crate::pile::Editable;
use crate::plan::{MapPlan, Plan};
use crate::query::{Lengths, Terms};
use geometry::{Label, Refusal};
use image::ImageStore;
use lattice::Lattice;
use listing::{Failure, LabelList, nearest_of};
use measure::{Measure, Straight, Street, Tile};
use script::report::{Shown, label_lines, refused, row};
use script::{Command, MeasureKind, Query, WorkList, parse};
use std::alloc::{AllocError, Global};
use std::fs;

// The longest list that is lent.
const MOST_PLACES: u32 = 1_000_000;

// What is said of a new plan where an edit is open.
const AN_EDIT: &str = "an edit is open";

// One run of a script: what its commands work on.
#[derive(Drop)]
pub struct Session<'a, P> {
    rt: &'a HostRuntime,
    heap: Global,
    // the line of the script that is answered
    line: u64,
    list: LabelList,
    plan: Option<P>,
    // the measure of the queries
    kind: MeasureKind,
    // how many places the number list has that an image is opened with
    numbers: usize,
    lengths: Lengths,
}

impl<'a, P: Editable> Session<'a, P> {
    pub fn new(rt: &'a HostRuntime) -> Session<'a, P> {
        let heap = rt.alloc();
        Session {
            rt,
            heap,
            line: 0,
            list: LabelList::new(heap),
            plan: None,
            kind: MeasureKind::Straight,
            numbers: 1536,
            lengths: Lengths {
                answers: None,
                work: None,
            },
        }
    }

    // What comes of the command in `text`, which stands on that line of the script.
    pub fn answer(&mut self, line: u64, text: &str) -> Result<String, AllocError> {
        self.line = line;
        let words: Vec<&str> = text.split_whitespace().collect(self.heap)?;
        let command = match parse(words.as_slice()) {
            Ok(command) => command,
            Err(expected) => return format!(in self.heap; "line {line}: expected {expected}"),
        };
        match self.obey(command) {
            Ok(text) => Ok(text),
            Err(Failure::Refused(refusal)) => refused(self.heap, refusal),
            Err(Failure::NoMemory) => Err(AllocError),
        }
    }

    // What the command prints, or why it has no result.
    fn obey(&mut self, command: Command<'_>) -> Result<String, Failure> {
        match command {
            Command::Label { number, x, y } => self.label(number, x, y),
            Command::Plain { x, y, k } => self.plain(x, y, k),
            Command::Grid {
                rows,
                columns,
                step,
                x,
                y,
                first,
            } => self.grid(rows, columns, step, x, y, first),
            Command::Image { path } => self.image(path),
            Command::Labels => self.labels(),
            Command::Nodes => self.nodes(),
            Command::Ask(query) => self.ask(query),
            Command::Measure { kind } => self.measure(kind),
            // No `From` takes a `u32` to a `usize`.
            Command::Limit { list, places } => self.limit(list, places.min(MOST_PLACES) as usize),
            Command::Edit => self.edit(),
            Command::Add { number, x, y } => self.add(number, x, y),
            Command::Withdraw { number } => self.withdraw(number),
            Command::Cancel => self.cancel(),
            Command::Keep => self.keep(),
        }
    }

    fn say(&self, text: &str) -> Result<String, Failure> {
        Ok(String::from_str(self.heap, text)?)
    }

    // Says that the command cannot be given where the script gives it.
    fn decline(&self, words: &str) -> Result<String, Failure> {
        let line = self.line;
        Ok(format!(in self.heap; "line {line}: {words}")?)
    }

    // Adds a label to the list.
    fn label(&mut self, number: u32, x: i32, y: i32) -> Result<String, Failure> {
        if self.plan.is_some() {
            return self.say("a plan is at hand");
        }
        self.list.add(number, x, y)?;
        self.say("ok")
    }

    // The labels of the plan at hand, or else of the list.
    fn labels_at_hand(&mut self) -> Result<Vec<Label>, AllocError> {
        match &mut self.plan {
            Some(plan) => plan.labels(self.heap),
            None => self.list.labels().iter().copied().collect(self.heap),
        }
    }

    // A row for each measure.
    fn plain(&mut self, x: i32, y: i32, k: u32) -> Result<String, Failure> {
        let labels = self.labels_at_hand()?;
        rows(self.heap, labels.as_slice(), x, y, k)
    }

    // Whether an edit is open.
    fn is_open(&self) -> bool {
        self.plan.as_ref().is_some_and(|pile| pile.is_open())
    }

    // Puts a plan in the place of the plan at hand and of the edits over it.
    fn take_plan(&mut self, plan: MapPlan) -> Result<String, Failure> {
        self.plan = Some(P::on(plan));
        self.say("ok")
    }

    // Makes a lattice.
    fn grid(
        &mut self,
        rows: u32,
        columns: u32,
        step: u32,
        x: i32,
        y: i32,
        first: u32,
    ) -> Result<String, Failure> {
        if self.is_open() {
            return self.decline(AN_EDIT);
        }
        self.take_plan(Plan::Grid(Lattice::new(rows, columns, step, x, y, first)?))
    }

    // Opens a file as an image.
    fn image(&mut self, path: &str) -> Result<String, Failure> {
        if self.is_open() {
            return self.decline(AN_EDIT);
        }
        let heap = self.heap;
        let Ok(bytes) = fs::read(self.rt, path) else {
            return Ok(format!(in heap; "cannot read {path}")?);
        };
        let mut store = ImageStore::new(heap)?;
        let mut numbers = vec![in heap; 0; self.numbers]?;
        store.open_image(bytes.as_slice(), numbers.as_mut_slice())?;
        self.take_plan(Plan::Image(Box::new(heap, store)?))
    }

    // A line for each label, by number.
    fn labels(&mut self) -> Result<String, Failure> {
        let labels = self.labels_at_hand()?;
        Ok(label_lines(self.heap, labels.as_slice())?)
    }

    // A line for each node.
    fn nodes(&mut self) -> Result<String, Failure> {
        match &mut self.plan {
            Some(plan) => Ok(plan.nodes(self.heap)?),
            None => self.say("no plan is at hand"),
        }
    }

    // What a query over the plan at hand answers.
    fn ask(&mut self, query: Query) -> Result<String, Failure> {
        match self.kind {
            MeasureKind::Straight => self.ask_by(&Straight, query),
            MeasureKind::Street => self.ask_by(&Street, query),
            MeasureKind::Tile => self.ask_by(&Tile, query),
        }
    }

    // The same by a measure.
    fn ask_by<M: Measure>(&mut self, measure: &M, query: Query) -> Result<String, Failure> {
        let terms = Terms {
            heap: self.heap,
            measure,
            lengths: self.lengths,
        };
        match &mut self.plan {
            Some(plan) => terms.answer(plan, query),
            None => self.say("no plan is at hand"),
        }
    }

    // Sets the measure of the queries.
    fn measure(&mut self, kind: MeasureKind) -> Result<String, Failure> {
        self.kind = kind;
        self.say("ok")
    }

    // Sets how many places a list has.
    fn limit(&mut self, list: WorkList, places: usize) -> Result<String, Failure> {
        match list {
            WorkList::Numbers => self.numbers = places,
            WorkList::Answers => self.lengths.answers = Some(places),
            WorkList::Work => self.lengths.work = Some(places),
        }
        self.say("ok")
    }

    // Opens an edit over the plan at hand.
    fn edit(&mut self) -> Result<String, Failure> {
        let Some(pile) = self.plan.take() else {
            return self.decline("no plan is at hand");
        };
        let room = pile.has_room();
        self.plan = Some(pile.begin(self.heap)?);
        if room {
            self.say("ok")
        } else {
            self.decline("eight edits lie one over another already")
        }
    }

    // Says how a change ended in the edit that is open, if one is.
    fn tell(&self, ended: Option<Result<(), Refusal>>) -> Result<String, Failure> {
        let Some(ended) = ended else {
            return self.decline("no edit is open");
        };
        ended?;
        self.say("ok")
    }

    // Adds a label in the edit.
    fn add(&mut self, number: u32, x: i32, y: i32) -> Result<String, Failure> {
        let ended = self.plan.as_mut().and_then(|pile| pile.add(number, x, y));
        self.tell(ended)
    }

    // Withdraws a label in the edit.
    fn withdraw(&mut self, number: u32) -> Result<String, Failure> {
        let ended = self.plan.as_mut().and_then(|pile| pile.withdraw(number));
        self.tell(ended)
    }

    // Cancels the edit.
    fn cancel(&mut self) -> Result<String, Failure> {
        let open = self.is_open();
        self.plan = self.plan.take().map(|pile| pile.cancel());
        self.tell(open.then_some(Ok(())))
    }

    // Keeps the edit.
    fn keep(&mut self) -> Result<String, Failure> {
        let open = self.is_open();
        if let Some(pile) = self.plan.take() {
            self.plan = Some(pile.keep(self.heap)?);
        }
        self.tell(open.then_some(Ok(())))
    }
}

// The row of the labels that are nearest by a measure.
fn row_by<M: Measure<Distance: Shown>>(
    heap: Global,
    name: &str,
    measure: &M,
    labels: &[Label],
    x: i32,
    y: i32,
    k: u32,
) -> Result<String, Failure>
    ensures { IfOk result (λ row. string_bytes row ≡ name.now ++ flat_map (entry_of M.Distance.Shown.shown) (listing M.Distance.Ranked.precedes (M.dist measure.now (place_at x y)) k labels.now)) }
{
    let found = nearest_of(heap, labels, measure, x, y, k)?;
    Ok(row(heap, name, found.as_slice())?)
}

// A row for each measure, by the names of `MEASURES` in `script`, which a measure's type does not tell. What the command
// gave is passed on as it came.
fn rows(heap: Global, labels: &[Label], x: i32, y: i32, k: u32) -> Result<String, Failure> {
    let straight = row_by(heap, "straight", &Straight, labels, x, y, k)?;
    let street = row_by(heap, "street", &Street, labels, x, y, k)?;
    let tile = row_by(heap, "tile", &Tile, labels, x, y, k)?;
    Ok(format!(in heap; "{straight}\n{street}\n{tile}")?)
}
