//! Tests of the check of rows: the longest table, and each fault where it stands.
#![tactic(auto)]

#[cfg(test)]
mod tests {
    use calculus::code::Counts;
    use calculus::refusals::{Refusal, RowFault};
    use calculus::rows::{Row, RowKind};
    use rows::check_rows;
    use std::alloc::AllocError;
    use std::test::Fail;

    // A row whose number is no kind's.
    fn unknown(kind: u8) -> Row {
        Row {
            kind,
            ..Row::default()
        }
    }

    fn sizes(contents: u32, operations: u32, methods: u32) -> Result<Counts, Refusal> {
        Ok(Counts {
            contents,
            operations,
            methods,
        })
    }

    fn at(fault: RowFault, row: u32) -> Result<Counts, Refusal> {
        Err(Refusal::AtRow(fault, row))
    }

    // The rows of lets nested alike on both sides, `height` of them one in another, over figures.
    fn push_lets(rows: &mut Vec<Row>, height: u32) -> Result<(), AllocError> {
        if height == 0 {
            rows.push(Row::new(RowKind::Figure, 0, 7))?;
            return Ok(());
        }
        rows.push(Row::new(RowKind::Let, 0, 0))?;
        push_lets(rows, height - 1)?;
        push_lets(rows, height - 1)
    }

    // 2^16 - 1 rows are accepted: 2^15 - 1 lets, each with its body, and 2^15 figures.
    #[test]
    fn the_longest_table(rt: HostRuntime) -> Result<(), Fail> {
        let mut rows = Vec::new(rt.alloc());
        push_lets(&mut rows, 15)?;
        assert_eq!(rt; rows.len(), 65_535);
        assert_eq!(rt; check_rows(&rows, 0), sizes(32_768, 65_535, 0));
        Ok(())
    }

    // One row more is too many, and no row is looked at.
    #[test]
    fn a_table_too_long(rt: HostRuntime) -> Result<(), Fail> {
        let mut rows = Vec::new(rt.alloc());
        push_lets(&mut rows, 15)?;
        rows.push(unknown(0))?;
        assert_eq!(rt; rows.len(), 65_536);
        assert_eq!(rt; check_rows(&rows, 17), Err(Refusal::RowCount));
        Ok(())
    }

    // The last row of the longest table lies under 15 lets.
    #[test]
    fn the_last_row(rt: HostRuntime) -> Result<(), Fail> {
        let mut rows = Vec::new(rt.alloc());
        push_lets(&mut rows, 15)?;
        let _ = rows.pop();
        rows.push(Row::new(RowKind::Variable, 0, 15))?;
        assert_eq!(rt; check_rows(&rows, 0), sizes(32_768, 65_535, 0));
        let _ = rows.pop();
        rows.push(Row::new(RowKind::Variable, 0, 16))?;
        assert_eq!(rt; check_rows(&rows, 0), at(RowFault::Index, 65_534));
        Ok(())
    }

    // An object may have 64 methods.
    #[test]
    fn the_largest_object(rt: HostRuntime) -> Result<(), Fail> {
        let mut rows = Vec::new(rt.alloc());
        rows.push(Row::new(RowKind::Object, 0, 64))?;
        for label in 0..64u16 {
            rows.push(Row::new(RowKind::Method, label, 0))?;
            rows.push(Row::new(RowKind::Variable, 0, 1))?;
        }
        assert_eq!(rt; check_rows(&rows, 0), sizes(65, 65, 64));
        let _ = rows.pop();
        let _ = rows.pop();
        rows.push(Row::new(RowKind::Method, 62, 0))?;
        rows.push(Row::new(RowKind::Variable, 0, 1))?;
        assert_eq!(rt; check_rows(&rows, 0), at(RowFault::LabelTwice, 127));
        Ok(())
    }

    // A term may be 200 deep.
    #[test]
    fn the_deepest_term(rt: HostRuntime) -> Result<(), Fail> {
        let mut rows = Vec::new(rt.alloc());
        for _ in 0..199u32 {
            rows.push(Row::new(RowKind::Clone, 0, 0))?;
        }
        rows.push(Row::new(RowKind::Figure, 0, 0))?;
        assert_eq!(rt; check_rows(&rows, 0), sizes(1, 200, 0));
        let _ = rows.pop();
        rows.push(Row::new(RowKind::Clone, 0, 0))?;
        rows.push(Row::new(RowKind::Figure, 0, 0))?;
        assert_eq!(rt; check_rows(&rows, 0), at(RowFault::Depth, 200));
        Ok(())
    }

    // Each fault at the first row, inside and at the last row; what fields may hold that a kind leaves unused.
    #[test]
    fn verdicts(rt: HostRuntime) {
        let f = Row::new(RowKind::Figure, 0, 1);
        let l = Row::new(RowKind::Let, 0, 0);
        let v = Row::new(RowKind::Variable, 0, 1);
        let m = Row::new(RowKind::Method, 4, 0);
        let o = Row::new(RowKind::Object, 0, 2);
        let cases: [(&[Row], u32, Result<Counts, Refusal>); 28] = [
            (&[], 0, Err(Refusal::RowCount)),
            (&[], 17, Err(Refusal::RowCount)),
            (&[f], 16, sizes(1, 1, 0)),
            (&[f], 17, Err(Refusal::GivenCount)),
            (&[unknown(0)], 17, Err(Refusal::GivenCount)),
            (&[unknown(0)], 0, at(RowFault::Kind, 0)),
            (&[unknown(255), f], 0, at(RowFault::Kind, 0)),
            (&[l, unknown(9), f], 0, at(RowFault::Kind, 1)),
            (&[l, f, unknown(9)], 0, at(RowFault::Kind, 2)),
            (&[m, f], 0, at(RowFault::Kind, 0)),
            (&[l, f, m], 0, at(RowFault::Kind, 2)),
            (&[o, f, f], 0, at(RowFault::Kind, 1)),
            (
                &[Row::new(RowKind::Object, 0, -1)],
                0,
                at(RowFault::MethodCount, 0),
            ),
            (
                &[l, Row::new(RowKind::Object, 0, 65), f],
                0,
                at(RowFault::MethodCount, 1),
            ),
            (
                &[l, f, Row::new(RowKind::Object, 0, i64::MIN)],
                0,
                at(RowFault::MethodCount, 2),
            ),
            (&[o, m, f, m, f], 0, at(RowFault::LabelTwice, 3)),
            (&[o, m, f, m], 0, at(RowFault::LabelTwice, 3)),
            (
                &[Row::new(RowKind::Variable, 0, 0)],
                3,
                at(RowFault::Index, 0),
            ),
            (
                &[Row::new(RowKind::Variable, 0, 4)],
                3,
                at(RowFault::Index, 0),
            ),
            (&[l, v, v], 0, at(RowFault::Index, 1)),
            (
                &[l, f, Row::new(RowKind::Variable, 0, 2)],
                0,
                at(RowFault::Index, 2),
            ),
            (
                &[l, f, Row::new(RowKind::Variable, 0, 2)],
                1,
                sizes(2, 3, 0),
            ),
            (&[l], 0, at(RowFault::Ends, 1)),
            (&[o, m, f], 0, at(RowFault::Ends, 3)),
            (&[f, unknown(9)], 0, at(RowFault::Left, 1)),
            (&[Row::new(RowKind::Variable, 65_535, 1)], 1, sizes(1, 1, 0)),
            (
                &[
                    Row::new(RowKind::Clone, 3, -5),
                    Row::new(RowKind::Figure, 2, i64::MIN),
                ],
                0,
                sizes(1, 2, 0),
            ),
            (
                &[
                    Row::new(RowKind::Let, 9, 9),
                    Row::new(RowKind::Object, 9, 0),
                    Row::new(RowKind::Variable, 9, 1),
                ],
                0,
                sizes(2, 3, 0),
            ),
        ];
        for (rows, givens, verdict) in cases {
            assert_eq!(rt; check_rows(rows, givens), verdict);
        }
    }
}
