// Pieces: worst times at both ends, the 64th and the 65th, and a task without any.
use task::stages::Entering;

#[test]
fn worst_times_are_1_to_65535(rt: HostRuntime) {
    let mut entering = Entering::open();
    let worsts = [
        (1, None),
        (65535, None),
        (0, Some(12)),
        (65536, Some(12)),
        (u32::MAX, Some(12)),
    ];
    for (worst, number) in worsts {
        assert_eq!(rt; entering.enter(worst).err().map(|e| e.number()), number);
    }
    let task = entering.close().file();
    assert!(rt;
        task.pieces() == 2 && task.worst(0) == 1 && task.worst(1) == 65535 && task.worst(2) == 0
    );
}

#[test]
fn there_is_no_65th_piece(rt: HostRuntime) {
    let mut entering = Entering::open();
    for k in 0..64 {
        assert_eq!(rt; entering.enter(7), Ok(k));
    }
    assert_eq!(rt; entering.enter(7).err().map(|e| e.number()), Some(11));
    assert_eq!(rt;
        entering.enter(0).err().map(|e| e.number()),
        Some(11),
        "a full task is refused before the worst time"
    );
    let task = entering.close().file();
    assert!(rt; task.pieces() == 64 && task.worst(63) == 7 && task.worst(64) == 0);
}

#[test]
fn a_task_without_pieces_is_filed(rt: HostRuntime) {
    let task = Entering::open().close().file();
    assert!(rt; task.pieces() == 0 && task.edges() == 0 && task.worst(0) == 0);
    assert!(rt; task.predecessors(0) == 0 && task.ancestors(0) == 0 && task.not_after(0) == 0);
}
