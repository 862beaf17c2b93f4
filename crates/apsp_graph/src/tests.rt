use crate::{MatrixFault, PathGraph, PathKernel, matrix_text, read_matrix};
use graph_model::{Inputs, Kernel, Key, ListProbe};
use lane_kernels::NONE as N;
use std::test::Fail;

const CASES: [(&str, Option<MatrixFault>); 24] = [
    ("3 2\n- 4 7\n- - 1\n- - -", None),
    ("1 1\n-\n", None),
    ("", Some(MatrixFault::Head)),
    ("2 1 1", Some(MatrixFault::Head)),
    ("513 32", Some(MatrixFault::Size)),
    ("1 0\n-\n", Some(MatrixFault::Size)),
    ("1 33\n-\n", Some(MatrixFault::Size)),
    ("17 1\n", Some(MatrixFault::Size)),
    ("2 1\n0 1\n0\n", Some(MatrixFault::Line { line: 3 })),
    ("2 1\n0 1 2\n0 1\n", Some(MatrixFault::Line { line: 2 })),
    ("2 1\n0 1\n", Some(MatrixFault::Line { line: 3 })),
    ("2 1\n0 +1\n0 1\n", Some(MatrixFault::Line { line: 2 })),
    ("2 1\n0 1\nx 1\n", Some(MatrixFault::Line { line: 3 })),
    (
        "2 1\n0 1 2147483648\n0 1\n",
        Some(MatrixFault::Line { line: 2 }),
    ),
    (
        "2 1\n2147483648 1\n0 1\n",
        Some(MatrixFault::Weight { line: 2 }),
    ),
    (
        "2 1\n0 2147483647\n2147483648 -\n",
        Some(MatrixFault::Weight { line: 3 }),
    ),
    (
        "2 1\r\n  0   1 \r\n- -\r\n\r\nfault 0 1 ready notify 15\r\n",
        None,
    ),
    (
        "1 1\n-\n\n \nfault 3 65535 explored descriptor\n\nfault 0 1 notified notify\n",
        None,
    ),
    (
        "1 1\n-\nfault 4 1 computed block\n",
        Some(MatrixFault::Fault { line: 3 }),
    ),
    (
        "1 1\n-\n\nfault 0 0 computed block\n",
        Some(MatrixFault::Fault { line: 4 }),
    ),
    (
        "1 1\n-\nfault 0 65536 computed block\n",
        Some(MatrixFault::Fault { line: 3 }),
    ),
    (
        "1 1\n-\nfault 0 1 computed block 0\n",
        Some(MatrixFault::Fault { line: 3 }),
    ),
    (
        "1 1\n-\nfault 0 1 computed notify 16\n",
        Some(MatrixFault::Fault { line: 3 }),
    ),
    ("1 1\n-\n1\n", Some(MatrixFault::Fault { line: 3 })),
];

#[test]
fn matrices(rt: HostRuntime) -> Result<(), Fail> {
    let alloc = rt.alloc();
    for (text, expected) in CASES {
        assert!(rt; text.len() < 100);
        assert_eq!(rt;
            read_matrix(alloc, text.as_bytes()).err(),
            expected,
            "{text}"
        );
    }

    let (graph, _) = read_matrix(alloc, b"3 2\n- 4 7\n- - 1\n- - -\n")?;
    let cells = [0, 4, 5, N, N, 0, 1, N, N, N, 0, N, N, N, N, 0];
    assert_eq!(rt; cells.len(), graph.sink_cells());
    let written = matrix_text(alloc, &graph, &cells)?;
    assert!(rt; written.as_slice() == b"0 4 5\n- 0 1\n- - 0\n".as_slice());

    let mut text = Vec::from_slice(alloc, b"1 1\n-\n")?;
    for _ in 0..4096 {
        text.extend_from_slice(b"fault 0 1 ready block\n")?;
    }
    assert!(rt; text.len() < 100_000);
    assert_eq!(rt; read_matrix(alloc, &text).err(), None);
    text.extend_from_slice(b"fault 0 1 ready block\n")?;
    assert!(rt; text.len() < 100_000);
    let full = Some(MatrixFault::Fault { line: 4099 });
    assert_eq!(rt; read_matrix(alloc, &text).err(), full);
    Ok(())
}

#[test]
fn kernel(rt: HostRuntime) -> Result<(), Fail> {
    let alloc = rt.alloc();
    let weights = vec![in alloc; Some(0u32)]?;
    let graph = PathGraph::new(1, 1, weights);
    let mut kernel = PathKernel::new(&graph, ListProbe::new(alloc));
    kernel.reserve(1)?;
    let inputs = Inputs::new(alloc, 0, 0)?;
    let mut cells = [7i64];
    kernel.compute(Key(0), 1, &inputs, &mut cells);
    assert_eq!(rt; cells[0], 0);
    let probe = kernel.into_probe();
    assert!(rt; probe.as_slice() == [(0, 1)].as_slice());
    Ok(())
}
