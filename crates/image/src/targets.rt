// The checks of what the entries lead to.
ghost use Rattle.std.specs.Prelude.{◌≡◌, ◌+◌, ◌<◌, ◌≤◌, true, not, is_some, Some, None, MatchResult};
ghost use Rattle.std.specs.List.{range_with_len, list_all};
ghost use Rattle.geometry.specs.declared.refusal.Reason.TheVariants.{BadTarget};
ghost use Rattle.geometry.specs.Refusals.{refusal};
ghost use Rattle.image.specs.Layout.{image_of};
ghost use Rattle.image.specs.Checks.{first_bad, at_first, unless, target_fine, target_reason, led_to};
ghost use Rattle.image.specs.Results.{as_result, Led, leads_down};

use crate::nodes::Entries;
use crate::reading::MOST_NODES;
use crate::refusing::refuse_unless;
use geometry::{Reason, Refusal, numbered};

// The entries of an image, and which of them leads to each node.
#[derive(Drop)]
pub(crate) struct Leads<'a> {
    pub(crate) entries: Entries<'a>,
    pub(crate) leaders: [Option<usize>; MOST_NODES],
    ghost led: { Led entries.reader.bytes.now leaders entries.reader.entries },
}

impl<'a> Entries<'a> {
    // Whether entry `e`, not entry 0, leads to a later node, one level down.
    fn leads_down(self, e: usize) -> bool
        requires { (1 ≤ e) × (e < self.reader.entries) }
        ensures { result ≡ leads_down (image_of self.entry.reader.bytes.now) e }
    {
        let own = self.owners[e];
        // No `From` takes a `u32` to a `usize`.
        let to = self.reader.target(e) as usize;
        own < to
            && to < self.reader.nodes
            && usize::from(self.reader.level(to)) + 1 == usize::from(self.reader.level(own))
    }

    // Whether entry `e` has a target as its kind asks for, where nothing leads to a node twice.
    fn is_target_fine(self, leaders: &[Option<usize>], e: usize) -> bool
        requires led { Led self.reader.bytes.now leaders.now e }
        requires within { e < self.reader.entries }
        ensures { result ≡ target_fine (image_of self.entry.reader.bytes.now) e }
    {
        let to = self.reader.target(e);
        if e == 0 {
            return to == 0;
        }
        if self.is_leaf_entry(e) {
            return numbered(to);
        }
        self.leads_down(e) && leaders[to as usize].is_none()
    }

    fn target_reason(self, e: usize) -> Reason
        requires { e < self.reader.entries }
        ensures { result ≡ target_reason (image_of self.entry.reader.bytes.now) e }
    {
        if self.is_leaf_entry(e) {
            Reason::BadNumber
        } else {
            Reason::BadTarget
        }
    }

    // Notes which node entry `e` leads to, if it is a branch.
    fn note_leader(self, leaders: &mut [Option<usize>], e: usize)
        requires led { Led self.reader.bytes.now leaders.old e }
        requires within { e < self.reader.entries }
        requires fine { target_fine (image_of self.reader.bytes.now) e ≡ true }
        ensures { Led self.entry.reader.bytes.now leaders.new (e + 1) }
    {
        if e >= 1 && !self.is_leaf_entry(e) {
            leaders[self.reader.target(e) as usize] = Some(e);
        }
    }

    // Every target is what its entry asks for. Gives which entry leads to each node.
    pub(crate) fn check_targets(self) -> Result<Leads<'a>, Refusal>
        ensures { MatchResult result (λ l. (at_first (first_bad (target_fine (image_of self.entry.reader.bytes.now)) self.entry.reader.entries) (target_reason (image_of self.entry.reader.bytes.now)) ≡ None) × (l.entries ≡ self.entry)) (λ r. at_first (first_bad (target_fine (image_of self.entry.reader.bytes.now)) self.entry.reader.entries) (target_reason (image_of self.entry.reader.bytes.now)) ≡ Some r) }
    {
        // In fixed memory, as the nodes of the entries are.
        let mut leaders = [None; MOST_NODES];
        // An entry is read by its number, and each turn writes what the next ones ask.
        for e in 0..self.reader.entries {
            if !self.is_target_fine(&leaders, e) {
                return Err(Refusal {
                    reason: self.target_reason(e),
                    place: e,
                });
            }
            self.note_leader(&mut leaders, e);
        }
        Ok(Leads {
            entries: self,
            leaders,
        })
    }
}

impl Leads<'_> {
    // Whether node `k` is led to, if it is not the root.
    fn is_led(&self, k: usize) -> bool
        requires { k < self.now.entries.reader.nodes }
        ensures { result ≡ led_to (image_of self.entry.now.entries.reader.bytes.now) k }
    {
        let leader = self.leaders[k];
        k == 0 || leader.is_some()
    }

    fn are_all_led(&self) -> bool
        ensures { result ≡ list_all (led_to (image_of self.entry.now.entries.reader.bytes.now)) (range_with_len 0 self.entry.now.entries.reader.nodes) }
    {
        (0..self.entries.reader.nodes).all(|k| self.is_led(k))
    }

    // Every node but the root is led to.
    pub(crate) fn check_led(&self) -> Result<(), Refusal>
        ensures { result ≡ as_result (unless (not (is_some (first_bad (led_to (image_of self.entry.now.entries.reader.bytes.now)) self.entry.now.entries.reader.nodes))) (refusal BadTarget self.entry.now.entries.reader.entries)) }
    {
        refuse_unless(
            self.are_all_led(),
            Reason::BadTarget,
            self.entries.reader.entries,
        )
    }
}
