// The checks of an image, in their order.
ghost use Rattle.std.specs.Prelude.{◌≡◌, length, Some, None, MatchResult};
ghost use Rattle.image.specs.Layout.{image_of};
ghost use Rattle.image.specs.Nodes.{start};
ghost use Rattle.image.specs.Checks.{first_of, verdict};
ghost use Rattle.image.specs.Results.{as_result, in_size, header_verdict, lead_checks, branch_checks, entry_checks, node_checks};

use crate::nodes::Entries;
use crate::reading::{MOST_ENTRIES, MOST_NODES, Reader};
use crate::targets::Leads;
use geometry::{Reason, Refusal};

fn is_in_size(n: usize, m: usize) -> bool
    ensures { result ≡ in_size n m }
{
    (1..=MOST_NODES).contains(&n) && (1..=MOST_ENTRIES).contains(&m)
}

// What reads the bytes: the first four tell how many nodes and entries there are, and the others are as many as that
// asks for.
fn read_sizes(bytes: &[u8]) -> Result<Reader<'_>, Refusal>
    ensures { MatchResult result (λ r. (header_verdict bytes.now ≡ None) × (r.bytes.now ≡ bytes.now)) (λ e. header_verdict bytes.now ≡ Some e) }
{
    let [n1, n0, m1, m0, rest @ ..] = bytes else {
        return Err(Refusal {
            reason: Reason::BadLength,
            place: bytes.len(),
        });
    };
    let nodes = usize::from(u16::from_be_bytes([*n1, *n0]));
    let entries = usize::from(u16::from_be_bytes([*m1, *m0]));
    if !is_in_size(nodes, entries) {
        return Err(Reason::BadSize.into());
    }
    if rest.len() != 2 * nodes + 20 * entries {
        return Err(Refusal {
            reason: Reason::BadLength,
            place: bytes.len(),
        });
    }
    Ok(Reader {
        bytes,
        nodes,
        entries,
    })
}

impl Leads<'_> {
    // The checks of what is led to.
    fn check(&self) -> Result<(), Refusal>
        ensures { result ≡ as_result (first_of (lead_checks (image_of self.entry.now.entries.reader.bytes.now) self.entry.now.entries.reader.nodes self.entry.now.entries.reader.entries)) }
    {
        self.check_led()?;
        self.check_inside()
    }
}

impl Entries<'_> {
    // The checks of the branches.
    fn check_branches(self) -> Result<(), Refusal>
        ensures { result ≡ as_result (first_of (branch_checks (image_of self.entry.reader.bytes.now) self.entry.reader.nodes self.entry.reader.entries)) }
    {
        self.check_targets()?.check()
    }

    // The checks of the entries.
    fn check(self, numbers: &mut [u32]) -> Result<(), Refusal>
        ensures { result ≡ as_result (first_of (entry_checks (image_of self.entry.reader.bytes.now) self.entry.reader.nodes self.entry.reader.entries (length numbers.old))) }
    {
        self.check_room(numbers.len())?;
        self.check_boxes()?;
        self.check_branches()?;
        self.check_numbers(numbers)
    }
}

impl Reader<'_> {
    // Finds the node of each entry, and checks the entries.
    fn check_entries(self, numbers: &mut [u32]) -> Result<(), Refusal>
        requires { start (image_of self.bytes.now) self.nodes ≡ self.entries }
        ensures { result ≡ as_result (first_of (entry_checks (image_of self.entry.bytes.now) self.entry.nodes self.entry.entries (length numbers.old))) }
    {
        // In fixed memory, by a rule of the project: an image is checked without any on the heap.
        let mut owners = [0usize; MOST_ENTRIES];
        self.find_owners(&mut owners).check(numbers)
    }

    // The checks of the nodes and the entries.
    fn check(self, numbers: &mut [u32]) -> Result<(), Refusal>
        ensures { result ≡ as_result (first_of (node_checks (image_of self.entry.bytes.now) self.entry.nodes self.entry.entries (length numbers.old))) }
    {
        self.check_nodes()?;
        self.check_sum()?;
        self.check_entries(numbers)
    }
}

// What reads the bytes, if they are a lawful image, or else why they are none. The list of numbers is for work.
pub(crate) fn check<'a>(bytes: &'a [u8], numbers: &mut [u32]) -> Result<Reader<'a>, Refusal>
    ensures { MatchResult result (λ r. (verdict bytes.now (length numbers.old) ≡ None) × (r.bytes.now ≡ bytes.now)) (λ e. verdict bytes.now (length numbers.old) ≡ Some e) }
{
    let reader = read_sizes(bytes)?;
    reader.check(numbers)?;
    Ok(reader)
}
