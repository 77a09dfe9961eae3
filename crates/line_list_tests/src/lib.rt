//! Tests of `line_list`: each call with ample memory, and what it answers, beside a plain list of the same items.
#![tactic(auto)]

#[cfg(test)]
mod tests {
    use line_list::{LineList, MOST_ITEMS, Share, Shared};
    use std::alloc::{AllocError, Global};
    use std::test::Fail;

    /// Adds an item to both lists.
    fn add(list: &mut LineList<u32>, plain: &mut Vec<u32>, item: u32) -> Result<(), AllocError> {
        if list.len() < MOST_ITEMS {
            list.push(item)?;
        }
        plain.push(item)?;
        Ok(())
    }

    /// The numbers from `from` to `to` in both lists.
    fn numbers(alloc: Global, from: u32, to: u32) -> Result<(LineList<u32>, Vec<u32>), AllocError> {
        let mut list = LineList::new(alloc);
        let mut plain = Vec::new(alloc);
        for item in from..to {
            add(&mut list, &mut plain, item)?;
        }
        Ok((list, plain))
    }

    /// Adds a run of a list, where it lies within.
    fn add_run(
        list: &mut LineList<u32>,
        more: &LineList<u32>,
        from: usize,
        count: usize,
    ) -> Result<(), AllocError> {
        let there = from <= more.len() && count <= more.len() - from;
        if there && count <= MOST_ITEMS - list.len() {
            list.push_run(more, from, count)?;
        }
        Ok(())
    }

    /// Whether the list has these items, by number and in order.
    fn is_list(list: &LineList<u32>, plain: &[u32]) -> bool {
        if list.len() != plain.len() {
            return false;
        }
        let by_number = plain
            .iter()
            .enumerate()
            .all(|(n, item)| n < list.len() && list.get(n) == item);
        by_number && list.iter().zip(plain.iter()).all(|(a, b)| a == b)
    }

    #[test]
    fn items_are_read_by_number_and_in_order(rt: HostRuntime) -> Result<(), Fail> {
        for count in [0, 1, 511, 512, 513, 1024, 1025, 3000] {
            let (list, plain) = numbers(rt.alloc(), 0, count)?;
            assert!(rt; is_list(&list, &plain), "of {count}");
        }
        Ok(())
    }

    #[test]
    fn runs_of_other_lists_are_added(rt: HostRuntime) -> Result<(), Fail> {
        let (long, items) = numbers(rt.alloc(), 0, 2100)?;
        for (from, count) in [
            (0, 2100),
            (0, 512),
            (1, 511),
            (511, 2),
            (513, 1000),
            (1536, 564),
            (1600, 500),
            (2100, 0),
        ] {
            let (mut list, mut plain) = numbers(rt.alloc(), 5000, 5007)?;
            add_run(&mut list, &long, from, count)?;
            plain.extend_from_slice(
                items
                    .get(from..from + count)
                    .ok_or("a run within the list")?,
            )?;
            add(&mut list, &mut plain, 6000)?;
            assert!(rt; is_list(&list, &plain), "{count} from {from}");
        }
        Ok(())
    }

    #[test]
    fn one_item_takes_the_place_of_another(rt: HostRuntime) -> Result<(), Fail> {
        let (mut list, mut plain) = numbers(rt.alloc(), 0, 1500)?;
        let before = list.copy(rt.alloc())?;
        for n in [0, 511, 512, 1023, 1024, 1499] {
            assert!(rt; n < list.len() && n < plain.len());
            list.put(n, 7)?;
            plain[n] = 7;
        }
        assert!(rt; is_list(&list, &plain));
        let (_, old) = numbers(rt.alloc(), 0, 1500)?;
        assert!(rt; is_list(&before, &old), "a copy stays as it was");
        Ok(())
    }

    #[test]
    fn small_pieces_are_put_together(rt: HostRuntime) -> Result<(), Fail> {
        let (all, plain) = numbers(rt.alloc(), 0, 2000)?;
        let mut list = LineList::new(rt.alloc());
        for n in 0..2000 {
            add_run(&mut list, &all, n, 1)?;
        }
        assert!(rt; is_list(&list, &plain));
        assert!(rt; list.piece_count() <= 9);
        Ok(())
    }

    #[test]
    fn a_shared_value_is_the_same(rt: HostRuntime) -> Result<(), Fail> {
        let name = Shared::new(rt.alloc(), String::from_str(rt.alloc(), "a name")?)?;
        let other = name.share()?;
        drop(name);
        assert_eq!(rt; other.get().as_str(), "a name");
        Ok(())
    }
}
