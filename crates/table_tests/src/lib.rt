// Tests of the tables at their limits.
#![tactic(auto)]

#[cfg(test)]
mod tests {
    use bits::Bits;
    use list::List;
    use rows::answer::{OpenFault, Outcome, TableFault};
    use rows::row::Row;
    use table::Table;
    use table::maxima::Maxima;
    use table::quota::Quota;

    // The answer of an add, with the number of a refusal in place of its kind; and so of an opening. One function for both would
    // be given the number of either fault, and say no less.
    fn numbered(answer: Result<Outcome, TableFault>) -> Result<Outcome, u32> {
        answer.map_err(|fault| fault.number())
    }

    fn opened(answer: Result<(), OpenFault>) -> Result<(), u32> {
        answer.map_err(|fault| fault.number())
    }

    // An add under a quota with one maximum for every relation.
    fn add_under<T: Table>(below: &mut T, most: u32, r: Row) -> Result<Outcome, TableFault> {
        let mut quota = Quota::new(below, Maxima::all(most));
        quota.add(r)
    }

    // The same under a quota on relation 2 that stands on another quota.
    fn add_under_two<T: Table + Drop>(
        below: T,
        lower: u32,
        upper: u32,
        r: Row,
    ) -> Result<Outcome, TableFault> {
        let mut own = Maxima::all(9);
        own.limit(2, upper);
        let mut pile = Quota::new(Quota::new(below, Maxima::all(lower)), own);
        pile.add(r)
    }

    fn maximum_under<T: Table>(below: &mut T, most: u32, relation: usize) -> u32 {
        let each = Quota::new(below, Maxima::all(most)).limits().each;
        each.get(relation).copied().unwrap_or(0)
    }

    #[test]
    fn list_opens(rt: HostRuntime) {
        let words = [7u32; 4];
        assert_eq!(rt; opened(List::check(&words, 0)), Err(1));
        assert_eq!(rt; opened(List::check(&words, 65536)), Err(1));
        assert!(rt; List::check(&words, 1).is_ok());
        assert!(rt; List::check(&words, 65535).is_ok());
        assert_eq!(rt; opened(List::check(&words[0..3], 2)), Err(2));
        assert_eq!(rt;
            opened(List::check(&words[0..3], 0)),
            Err(1),
            "the width comes first"
        );
    }

    #[test]
    fn list_past_a_refusal(rt: HostRuntime) {
        let mut words = [7u32; 3];
        {
            let mut list = List::make(&mut words, 2);
            let limits = list.limits();
            assert_eq!(rt; limits.width, 1);
            assert_eq!(rt; limits.total, 0);
            assert_eq!(rt; limits.each[39], 0);
            assert_eq!(rt; numbered(list.add(Row::new(1, 0, 0, 0))), Err(4));
        }
        assert_eq!(rt; words[0], 7);
    }

    #[test]
    fn list_full(rt: HostRuntime) {
        let mut words = [7u32; 9];
        {
            let mut list = List::make(&mut words, 3);
            assert_eq!(rt;
                numbered(list.add(Row::new(4, 2, 1, 0))),
                Ok(Outcome::Added)
            );
            assert_eq!(rt;
                numbered(list.add(Row::new(1, 0, 0, 0))),
                Ok(Outcome::Added)
            );
            assert_eq!(rt; numbered(list.add(Row::new(4, 2, 1, 0))), Ok(Outcome::Held));
            assert_eq!(rt; numbered(list.add(Row::new(2, 0, 1, 0))), Err(4));
            assert_eq!(rt; list.count(), 2);
            assert_eq!(rt; list.count_of(4), 1);
            assert_eq!(rt; list.next(Row::new(0, 0, 0, 0)), Some(Row::new(1, 0, 0, 0)));
            assert_eq!(rt; list.next(Row::new(1, 0, 0, 0)), Some(Row::new(1, 0, 0, 0)));
            assert_eq!(rt; list.next(Row::new(1, 0, 0, 1)), Some(Row::new(4, 2, 1, 0)));
        }
        assert_eq!(rt; words[0], 4);
        assert_eq!(rt; words[2], 1);
        assert_eq!(rt; words[4], 1);
        assert_eq!(rt; words[8], 7, "no row reaches the last word");
    }

    #[test]
    fn list_admits(rt: HostRuntime) {
        let mut words = [0u32; 40];
        let mut list = List::make(&mut words, 2);
        assert_eq!(rt;
            numbered(list.add(Row::new(2, 1, 1, 0))),
            Ok(Outcome::Added)
        );
        assert_eq!(rt;
            numbered(list.add(Row::new(2, 2, 0, 0))),
            Err(3),
            "a code at the width"
        );
        assert_eq!(rt;
            numbered(list.add(Row::new(40, 0, 0, 0))),
            Err(3),
            "no such relation"
        );
        assert_eq!(rt;
            numbered(list.add(Row::new(2, 0, 0, 1))),
            Err(3),
            "an unused place"
        );
        assert_eq!(rt;
            numbered(list.add(Row::new(1, 0, 1, 0))),
            Err(3),
            "an unused place"
        );
        assert!(rt; !list.holds(Row::new(2, 1, 1, 1)));
        assert_eq!(rt; list.next(Row::new(1, 9, 9, 9)), Some(Row::new(2, 1, 1, 0)));
        assert!(rt; list.next(Row::new(40, 0, 0, 0)).is_none());
    }

    #[test]
    fn quotas(rt: HostRuntime) {
        let mut words = [0u32; 20];
        let mut list = List::make(&mut words, 5);
        assert_eq!(rt;
            numbered(add_under(&mut list, 0, Row::new(2, 0, 0, 0))),
            Err(4),
            "a quota of 0"
        );
        assert_eq!(rt;
            numbered(add_under(&mut list, 1, Row::new(2, 0, 0, 0))),
            Ok(Outcome::Added)
        );
        assert_eq!(rt;
            numbered(add_under(&mut list, 0, Row::new(2, 0, 0, 0))),
            Ok(Outcome::Held),
            "a held row on a fuller table"
        );
        assert_eq!(rt;
            numbered(add_under(&mut list, 1, Row::new(2, 0, 1, 0))),
            Err(4),
            "at the quota"
        );
        assert_eq!(rt;
            numbered(add_under(&mut list, 1, Row::new(3, 0, 1, 0))),
            Ok(Outcome::Added),
            "another relation"
        );
        assert_eq!(rt;
            numbered(add_under(&mut list, 2, Row::new(2, 0, 1, 0))),
            Ok(Outcome::Added)
        );
        assert_eq!(rt;
            numbered(add_under(&mut list, 1, Row::new(2, 0, 2, 0))),
            Err(4),
            "on a fuller table"
        );
        assert_eq!(rt;
            numbered(add_under_two(&mut list, 1, 9, Row::new(2, 0, 2, 0))),
            Err(4),
            "the lower quota"
        );
        assert_eq!(rt;
            numbered(add_under_two(&mut list, 9, 2, Row::new(2, 0, 2, 0))),
            Err(4),
            "the upper quota"
        );
        assert_eq!(rt;
            maximum_under(&mut list, 100, 2),
            5,
            "a quota above the list's maximum"
        );
        assert_eq!(rt; maximum_under(&mut list, 3, 2), 3);
    }

    #[test]
    fn bits_open(rt: HostRuntime) {
        let words = [0u64; 3105];
        assert_eq!(rt; opened(Bits::check(&words, 0)), Err(1));
        assert_eq!(rt; opened(Bits::check(&words, 33)), Err(1));
        assert!(rt; Bits::check(&words, 32).is_ok());
        assert_eq!(rt; opened(Bits::check(&words[0..3104], 32)), Err(2));
        assert!(rt; Bits::check(&words[0..1], 1).is_ok());
        assert_eq!(rt; opened(Bits::check(&words[0..0], 1)), Err(2));
        assert!(rt; Bits::check(&words[0..3], 2).is_ok());
        assert_eq!(rt; opened(Bits::check(&words[0..2], 2)), Err(2));
    }

    #[test]
    fn bits_past_a_refusal(rt: HostRuntime) {
        let mut words = [9u64; 2];
        {
            let mut bits = Bits::make(&mut words, 2);
            assert_eq!(rt; bits.limits().width, 1);
            assert_eq!(rt; bits.limits().total, 0);
            assert_eq!(rt; numbered(bits.add(Row::new(1, 0, 0, 0))), Err(4));
            assert!(rt; !bits.holds(Row::new(1, 0, 0, 0)));
        }
        assert_eq!(rt; words[0], 9);
        assert_eq!(rt; words[1], 9);
    }

    #[test]
    fn bits_hold(rt: HostRuntime) {
        let mut words = [0xffff_ffff_ffff_ffff_u64; 4];
        {
            let mut bits = Bits::make(&mut words, 2);
            assert_eq!(rt; bits.count(), 0);
            assert_eq!(rt;
                numbered(bits.add(Row::new(0, 0, 0, 0))),
                Ok(Outcome::Added)
            );
            assert_eq!(rt;
                numbered(bits.add(Row::new(39, 1, 1, 0))),
                Ok(Outcome::Added)
            );
            assert_eq!(rt;
                numbered(bits.add(Row::new(39, 1, 1, 0))),
                Ok(Outcome::Held)
            );
            assert_eq!(rt; numbered(bits.add(Row::new(39, 2, 0, 0))), Err(3));
            assert_eq!(rt; numbered(bits.add(Row::new(39, 1, 1, 1))), Err(3));
            assert_eq!(rt; bits.count(), 2);
            assert_eq!(rt;
                bits.next(Row::new(0, 0, 0, 1)),
                Some(Row::new(39, 1, 1, 0)),
                "past two empty words"
            );
            assert!(rt; bits.next(Row::new(39, 1, 1, 1)).is_none());
            assert_eq!(rt;
                numbered(add_under(&mut bits, 1, Row::new(39, 0, 0, 0))),
                Err(4)
            );
            assert_eq!(rt;
                numbered(add_under_two(&mut bits, 2, 0, Row::new(39, 0, 0, 0))),
                Ok(Outcome::Added)
            );
        }
        assert_eq!(rt; words[0], 1, "the lowest bit of the first word");
        assert_eq!(rt; words[2], 0x2_4000_0000_0000);
        assert_eq!(rt;
            words[3],
            0xffff_ffff_ffff_ffff,
            "a word that the table does not need"
        );
    }
}
