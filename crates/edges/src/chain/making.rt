ghost use Rattle.std.specs.Prelude.{◌≡◌, ◌-◌, true, false, None, MatchResult};
ghost use Rattle.geometry.specs.Refusals.{refusal};
ghost use Rattle.geometry.specs.declared.refusal.Reason.TheVariants.{BadSize};
ghost use Rattle.edges.specs.Chain.{chain_table, is_size};

use super::Chain;
use geometry::{Label, Reason, Refusal};
use index::{NodeStore, Openings};

impl Chain {
    // So many nodes, from 1 to 300, with that label in the last. No node is open, and the meter is 0.
    pub fn new(nodes: usize, label: Label) -> Result<Chain, Refusal>
        ensures { MatchResult result (λ c. (is_size nodes ≡ true) × (⟦<Chain as NodeStore>⟧.table c ≡ chain_table (nodes - 1) label) × (⟦<Chain as NodeStore>⟧.opened c ≡ None) × (⟦<Chain as NodeStore>⟧.metered c ≡ 0)) (λ e. (is_size nodes ≡ false) × (e ≡ refusal BadSize 0)) }
    {
        if !(1..=300).contains(&nodes) {
            return Err(Reason::BadSize.into());
        }
        Ok(Chain {
            last: nodes - 1,
            label,
            openings: Openings::new(),
        })
    }
}
