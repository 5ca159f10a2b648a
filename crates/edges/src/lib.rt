// The edges of the rules, run.
#![tactic(auto)]

pub mod chain;

pub use chain::Chain;

#[cfg(test)]
mod chains;
#[cfg(test)]
mod edits;
#[cfg(test)]
mod queries;
#[cfg(test)]
mod shared;

#[cfg(test)]
mod tests {
    use crate::shared::refused;
    use geometry::{Label, Place, Reason, Rect, Refusal};
    use image::ImageStore;
    use index::NodeStore;
    use lattice::Lattice;
    use listing::{Failure, LabelList};
    use measure::{Measure, Straight, Street, Tile};
    use queue::{pop, push};
    use std::alloc::Global;
    use std::process::Abort;
    use std::test::Fail;

    #[test]
    fn places_end_at_a_million(rt: HostRuntime) {
        for (x, y, number) in [
            (1_000_000, -1_000_000, None),
            (1_000_001, 0, Some(10)),
            (-1_000_001, 0, Some(10)),
            (0, 1_000_001, Some(10)),
            (0, i32::MIN, Some(10)),
        ] {
            assert_eq!(rt; refused(Place::new(x, y)), number);
        }
    }

    #[test]
    fn labels_are_refused_by_number_then_by_place(rt: HostRuntime) {
        for (n, x, number) in [
            (1, 0, None),
            (999_999_999, 0, None),
            (0, 0, Some(6)),
            (1_000_000_000, 0, Some(6)),
            (0, 1_000_001, Some(6)),
            (1, 1_000_001, Some(10)),
        ] {
            assert_eq!(rt; refused(Label::new(n, x, 0)), number);
        }
    }

    #[test]
    fn boxes_are_upright_and_on_the_map(rt: HostRuntime) {
        for (west, east, number) in [
            (0, 0, None),
            (-1_000_000, 1_000_000, None),
            (1, 0, Some(3)),
            (0, 1_000_001, Some(3)),
            (-1_000_001, 0, Some(3)),
        ] {
            assert_eq!(rt; refused(Rect::new(west, 0, east, 0)), number);
            assert_eq!(rt; refused(Rect::new(0, west, 0, east)), number);
        }
    }

    // Puts four numbers into a queue for four, and takes them out.
    fn through(rt: &impl Abort, items: &mut [u32]) -> Result<(), Fail> {
        let mut len = 0;
        for x in [30, 10, 40, 20] {
            len = push(items, len, x).ok_or("full")?;
        }
        assert_eq!(rt; push(items, len, 50), None);
        for x in [10, 20, 30, 40] {
            let (y, rest) = pop(items, len).ok_or("empty")?;
            assert_eq!(rt; y, x);
            len = rest;
        }
        assert_eq!(rt; pop(items, len), None);
        assert_eq!(rt; pop(items, 5), None);
        Ok(())
    }

    // A call tells the type of pairs of plain numbers.
    #[test]
    fn pairs_are_queued_by_the_first_number(rt: HostRuntime) {
        let mut items = [(0, 0); 2];
        assert_eq!(rt; push(&mut items, 0, (3, 1)), Some(1));
        assert_eq!(rt; push(&mut items, 1, (2, 9)), Some(2));
        assert_eq!(rt; pop(&mut items, 2), Some(((2, 9), 1)));
    }

    #[test]
    fn numbers_leave_the_queue_in_order(rt: HostRuntime) -> Result<(), Fail> {
        through(&rt, &mut [0; 4])
    }

    // The number and the place of an image store's refusal, if it refuses.
    fn answer(store: &mut ImageStore, bytes: &[u8]) -> Option<(u32, usize)> {
        let refusal = store.open_image(bytes, &mut [0; 4]).err()?;
        Some((refusal.number(), refusal.place))
    }

    #[test]
    fn sizes_of_images_have_ends(rt: HostRuntime) -> Result<(), Fail> {
        let mut store = ImageStore::new(rt.alloc())?;
        for (n, m1, m0, number) in [
            (128, 0, 1, 1),
            (129, 0, 1, 2),
            (0, 0, 1, 2),
            (1, 6, 1, 1),
            (1, 6, 2, 2),
            (1, 0, 0, 2),
        ] {
            let told = answer(&mut store, &[0, n, m1, m0]).map(|refusal| refusal.0);
            assert_eq!(rt; told, Some(number));
        }
        for (level, count, told) in [
            (7, 0, None),
            (8, 0, Some((2, 0))),
            (0, 12, Some((2, 1))),
            (0, 13, Some((2, 0))),
        ] {
            let bytes = [
                0, 1, 0, 1, level, count, 0, 0, 0, 0, 0, 0, 0, 0, 0, 0, 0, 0, 0, 0, 0, 0, 0, 0, 0,
                0,
            ];
            assert_eq!(rt; answer(&mut store, &bytes), told);
        }
        assert_eq!(rt; store.node_count(), 1);
        Ok(())
    }

    #[test]
    fn the_meter_ends_at_two_million(rt: HostRuntime) -> Result<(), Fail> {
        let Ok(mut store) = Lattice::new(1, 12, 100_000, -100_000, 0, 1) else {
            return Err(Fail::new("refused"));
        };
        for _ in 0..2_000_000 {
            assert!(rt; store.open(1).is_ok());
        }
        assert_eq!(rt; refused(store.open(2)), Some(15));
        assert_eq!(rt; refused(store.open(0)), Some(16));
        assert_eq!(rt; store.meter(), 2_000_000);
        store.zero();
        assert_eq!(rt; refused(store.open(0)), None);
        Ok(())
    }

    // How many labels a listing has.
    fn listed<M: Measure>(
        heap: Global,
        list: &LabelList,
        measure: &M,
        k: u32,
    ) -> Result<usize, Failure> {
        Ok(list.nearest(heap, measure, 0, 0, k)?.len())
    }

    #[test]
    fn ties_are_let_in(rt: HostRuntime) {
        let heap = rt.alloc();
        let mut list = LabelList::new(heap);
        for (n, x, y) in [(4, 4, 3), (2, -3, 4), (3, 3, -4), (9, 5, 0), (1, 0, 100)] {
            assert!(rt; list.add(n, x, y).is_ok());
        }
        assert!(rt; list.add(4, 0, 0).is_err());
        assert_eq!(rt; listed(heap, &list, &Straight, 1), Ok(4));
        assert_eq!(rt; listed(heap, &list, &Street, 1), Ok(1));
        assert_eq!(rt; listed(heap, &list, &Street, 2), Ok(4));
        assert_eq!(rt; listed(heap, &list, &Tile, 1), Ok(3));
        assert_eq!(rt; listed(heap, &list, &Tile, 64), Ok(5));
        let refusal = Refusal {
            reason: Reason::BadCount,
            place: 0,
        };
        assert_eq!(rt; refusal.number(), 9);
        let refused = Err(Failure::Refused(refusal));
        assert_eq!(rt; listed(heap, &list, &Tile, 65), refused);
        assert_eq!(rt; listed(heap, &list, &Tile, 0), refused);
    }
}
