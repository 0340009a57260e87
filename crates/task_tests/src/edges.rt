// Edges: the worked example, each refusal in its order, and ancestors and descendants through several edges.
use example::alike::alike;
use example::worked::worked_example;
use std::test::Fail;

#[test]
fn the_worked_example_is_filed(rt: HostRuntime) -> Result<(), Fail> {
    let task = worked_example()?;
    assert!(rt; task.pieces() == 6 && task.edges() == 3);
    // worst time, predecessors, ancestors and not-after set of each piece, and of none
    let rows = [
        (3, 0, 0, 0b110001),
        (2, 0, 0, 0b111111),
        (5, 0, 0, 0b111101),
        (1, 0b10, 0b10, 0b111001),
        (2, 0b1, 0b1, 0b110001),
        (2, 0b1, 0b1, 0b110001),
        (0, 0, 0, 0),
    ];
    for (k, row) in rows.into_iter().enumerate() {
        let filed = (
            task.worst(k),
            task.predecessors(k),
            task.ancestors(k),
            task.not_after(k),
        );
        assert_eq!(rt; filed, row, "piece {k}");
    }
    Ok(())
}

#[test]
fn edges_are_refused_in_order(rt: HostRuntime) -> Result<(), Fail> {
    let mut linking = alike(6, 1)?;
    // refusals by their numbers, since those are what is promised
    let edges = [
        // the worked example's edges, and the three that it refuses
        (0, 4, None),
        (0, 5, None),
        (1, 3, None),
        (4, 0, Some(23)),
        (0, 4, Some(22)),
        (6, 0, Some(21)),
        // either end past the task, both, and the largest number
        (5, 6, Some(21)),
        (6, 6, Some(21)),
        (usize::MAX, 0, Some(21)),
        // a piece and itself, and a circle through three edges
        (2, 2, Some(23)),
        (3, 0, None),
        (4, 1, Some(23)),
        (5, 2, None),
    ];
    for (before, after, number) in edges {
        assert_eq!(rt;
            linking.link(before, after).err().map(|e| e.number()),
            number
        );
    }
    let task = linking.file();
    assert!(rt; task.edges() == 5 && task.ancestors(4) == 0b1011 && task.ancestors(2) == 0b101011);
    assert!(rt;
        task.predecessors(4) == 0b1 && task.predecessors(0) == 0b1000 && task.ancestors(0) == 0b1010
    );
    // 1 leads to 3, 3 to 0, 0 to 4 and 5, and 5 to 2; past the task nothing leads anywhere
    assert!(rt; task.successors(0) == 0b110000 && task.descendants(1) == 0b111101);
    assert!(rt;
        task.successors(2) == 0 && task.descendants(5) == 0b100 && task.descendants(64) == 0
    );
    Ok(())
}

#[test]
fn a_chain_of_64_ends_at_piece_63(rt: HostRuntime) -> Result<(), Fail> {
    let mut linking = alike(64, 1)?;
    for k in 0..63 {
        assert_eq!(rt; linking.link(k, k + 1).err().map(|e| e.number()), None);
    }
    assert_eq!(rt; linking.link(63, 0).err().map(|e| e.number()), Some(23));
    let task = linking.file();
    assert!(rt;
        task.edges() == 63
            && task.ancestors(63) == u64::MAX >> 1
            && task.predecessors(63) == 1 << 62
    );
    Ok(())
}
