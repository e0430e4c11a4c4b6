//! Examples of the report and of every fault of an input, to the byte, and of a field that is found in new cells.
#![tactic(auto)]

#[cfg(test)]
mod tests {
    use grid::{Cell, Refusal, Sizes};
    use pictures::Grey;
    use replay::{FieldError, Unwatched, find_named_field, find_new_field};
    use reporting::{ReportError, fault_text, report};
    use rules::{NamedRule, RuleName, Spacings};
    use std::alloc::Global;
    use std::process::Abort;
    use std::test::Fail;

    // Checks what is printed for an input, a report or a fault.
    fn prints(rt: &impl Abort, heap: Global, input: &[u8], expected: &str) -> Result<(), Fail> {
        let text = match report(heap, input) {
            Ok(text) => text,
            Err(ReportError::Fault(fault)) => fault_text(heap, fault)?,
            Err(ReportError::NoMemory) => return Err(Fail::new("no memory")),
        };
        assert_eq!(rt; text.as_str(), expected);
        Ok(())
    }

    // Checks that an input has the fault whose values are given.
    fn faults(rt: &impl Abort, heap: Global, input: &[u8], values: &str) -> Result<(), Fail> {
        let expected = format!(in heap; "part cause image byte\n{values}\n")?;
        prints(rt, heap, input, expected.as_str())
    }

    #[test]
    fn reports_by_each_rule(rt: HostRuntime) -> Result<(), Fail> {
        let heap = rt.alloc();
        prints(
            &rt,
            heap,
            b"rule sx sy sz\nsquare 2 2 2\nP4\n3 2\n\x80\x00",
            "x y z px py pz value dist\n0 0 0 0 0 0 0 0\n1 0 0 0 0 0 4 2\n2 0 0 0 0 0 16 4\n0 1 0 0 0 0 4 2\n1 1 0 0 0 0 8 2\n2 1 0 0 0 0 20 4\n",
        )?;
        prints(
            &rt,
            heap,
            b"sz sy rule sx\n5 3 block 2\nP4\n2 1\n\x40P4\n2 1\n\x00",
            "x y z px py pz value dist\n0 0 0 1 0 0 2 2\n1 0 0 1 0 0 0 0\n0 0 1 1 0 0 7 7\n1 0 1 1 0 0 5 5\n",
        )?;
        prints(
            &rt,
            heap,
            b"sx sy sz rule\n2 3 5 chess\nP4\n1 2\n\x00\x80",
            "x y z px py pz value dist\n0 0 0 0 1 0 3 3\n0 1 0 0 1 0 0 0\n",
        )
    }

    #[test]
    fn tells_faults_of_the_lines(rt: HostRuntime) -> Result<(), Fail> {
        let heap = rt.alloc();
        faults(&rt, heap, b"", "job 30 0 0")?;
        faults(&rt, heap, b"rule sx sy sz", "job 30 0 0")?;
        faults(&rt, heap, b"rule sx sy sy\nsquare 2 2 2\n", "job 30 0 0")?;
        faults(&rt, heap, b"rule  sx sy sz\nsquare 2 2 2\n", "job 30 0 0")?;
        faults(&rt, heap, b"rule sx sy sz \nsquare 2 2 2\n", "job 30 0 0")?;
        faults(&rt, heap, b"rule sx sy sz\n", "job 31 0 14")?;
        faults(&rt, heap, b"rule sx sy sz\nsquare 2 2 2", "job 31 0 14")?;
        faults(&rt, heap, b"rule sx sy sz\nround 2 2 2\n", "job 31 0 14")?;
        faults(&rt, heap, b"rule sx sy sz\nsquare 2 02 2\n", "job 31 0 14")?;
        faults(&rt, heap, b"rule sx sy sz\nsquare 2 2 0\n", "job 31 0 14")?;
        faults(
            &rt,
            heap,
            b"rule sx sy sz\nsquare 2 2 10001\n",
            "job 31 0 14",
        )
    }

    #[test]
    fn tells_faults_of_the_stack(rt: HostRuntime) -> Result<(), Fail> {
        let heap = rt.alloc();
        faults(&rt, heap, b"rule sx sy sz\nsquare 2 2 2\n", "stack 20 0 27")?;
        faults(
            &rt,
            heap,
            b"rule sx sy sz\nsquare 2 2 2\nP5\n3 2\n\x80\x00",
            "stack 20 0 27",
        )?;
        faults(
            &rt,
            heap,
            b"rule sx sy sz\nsquare 2 2 2\nP4\n0 2\n\x80\x00",
            "stack 21 0 30",
        )?;
        faults(
            &rt,
            heap,
            b"rule sx sy sz\nsquare 2 2 2\nP4\n3 2 \x80\x00",
            "stack 21 0 32",
        )?;
        faults(
            &rt,
            heap,
            b"rule sx sy sz\nsquare 2 2 2\nP4\n3 2\n\x80",
            "stack 22 0 35",
        )?;
        faults(
            &rt,
            heap,
            b"rule sx sy sz\nsquare 2 2 2\nP4\n3 2\n\x80\x00P4\n2 3\n\x80\x00\x00",
            "stack 23 1 39",
        )?;
        faults(
            &rt,
            heap,
            b"rule sx sy sz\nsquare 2 2 2\nP4\n3 2\n\x00\x00",
            "field 6 0 0",
        )
    }

    // A stack of too many cells, an input of exactly 8,192 bytes, and one byte more.
    #[test]
    fn tells_inputs_that_are_too_long(rt: HostRuntime) -> Result<(), Fail> {
        let heap = rt.alloc();
        let mut input = b"rule sx sy sz\nsquare 2 2 2\nP4\n1023 3\n".to_vec(heap)?;
        input.resize(421, 0)?;
        faults(&rt, heap, &input, "stack 25 0 27")?;
        input.resize(8192, 0)?;
        faults(&rt, heap, &input, "stack 20 1 421")?;
        input.push(0)?;
        faults(&rt, heap, &input, "job 26 0 8192")
    }

    // The field of six cells in two rows, of which those are marked whose byte is not 0.
    fn find_six(heap: Global, bytes: &[u8]) -> Result<Vec<Cell>, FieldError> {
        let sizes = Sizes {
            nx: 3,
            ny: 2,
            nz: 1,
        };
        let picture = Grey::new(sizes, 1, bytes)?;
        let rule = NamedRule::new(RuleName::Square, 2, 2, 2)?;
        find_new_field(heap, rule, &picture, &mut Unwatched)
    }

    // The same under the rule of a name.
    fn find_six_by_name(heap: Global, name: RuleName) -> Result<Vec<Cell>, FieldError> {
        let sizes = Sizes {
            nx: 3,
            ny: 2,
            nz: 1,
        };
        let picture = Grey::new(sizes, 1, &[1, 0, 0, 0, 0, 0])?;
        let spacings = Spacings::new(2, 2, 2)?;
        find_named_field(heap, name, spacings, &picture, &mut Unwatched)
    }

    #[test]
    fn finds_a_field_in_new_cells(rt: HostRuntime) -> Result<(), Fail> {
        let heap = rt.alloc();
        let Ok(cells) = find_six(heap, &[1, 0, 0, 0, 0, 0]) else {
            return Err(Fail::new("no field"));
        };
        assert_eq!(rt; cells.len(), 6);
        for (cell, value) in cells.iter().zip([0, 4, 16, 4, 8, 20]) {
            assert_eq!(rt; (cell.point, cell.value), (Some(0), value));
        }
        let Ok(by_name) = find_six_by_name(heap, RuleName::Block) else {
            return Err(Fail::new("no field by name"));
        };
        for (cell, value) in by_name.iter().zip([0, 2, 4, 2, 4, 6]) {
            assert_eq!(rt; (cell.point, cell.value), (Some(0), value));
        }
        let unmarked = find_six(heap, &[0; 6]);
        assert_eq!(rt; unmarked.err(), Some(FieldError::Refused(Refusal::NoMark)));
        Ok(())
    }
}
