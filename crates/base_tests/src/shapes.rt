//! Shapes: the ends of their ranges.
use row_words::{MakeFault, Shape, ShapeFault};

// Each field at its ends, below and above them: leaves, items, heads, values, lanes, soft, hard,
// merge_sum, and the number of the fault, 0 for none.
const ROWS: [[u32; 9]; 20] = [
    [1, 1, 1, 1, 1, 2, 3, 0, 0],
    [
        65_536, 4_194_304, 1_048_576, 262_144, 64, 1_024, 4_096, 512, 0,
    ],
    [0, 0, 0, 0, 0, 0, 0, 0, 1],
    [65_537, 4_194_305, 1, 1, 1, 2, 3, 0, 1],
    [1, 0, 0, 1, 1, 2, 3, 0, 2],
    [1, 4_194_305, 1, 1, 1, 2, 3, 0, 2],
    [1, 1, 0, 0, 1, 2, 3, 0, 3],
    [1, 1, 1_048_577, 1, 1, 2, 3, 0, 3],
    [1, 1, 1, 0, 0, 2, 3, 0, 4],
    [1, 1, 1, 262_145, 1, 2, 3, 0, 4],
    [1, 1, 1, 1, 0, 3, 3, 0, 5],
    [1, 1, 1, 1, 65, 2, 3, 0, 5],
    [1, 1, 1, 1, 1, 0, 0, 0, 6],
    [2_048, 262_144, 65_536, 65_536, 16, 3, 1_024, 32, 6],
    [1, 1, 1, 1, 1, 1_026, 4_097, 0, 6],
    [1, 1, 1, 1, 1, 2, 2, 2, 7],
    [1, 1, 1, 1, 1, 2, 4_097, 0, 7],
    [1, 1, 1, 1, 1, 2, 3, 1, 0],
    [1, 1, 1, 1, 1, 2, 3, 2, 8],
    [2_048, 262_144, 65_536, 65_536, 16, 64, 1_024, 33, 8],
];

// The number of a shape's fault, 0 for none.
fn fault_number(shape: &Shape) -> u32 {
    match shape.check() {
        Ok(()) => 0,
        Err(fault) => fault.number(),
    }
}

// Whether the shape of a row has its fault.
fn has_its_fault(row: &[u32; 9]) -> bool {
    let [
        leaves,
        items,
        heads,
        values,
        lanes,
        soft,
        hard,
        merge_sum,
        want,
    ] = *row;
    let shape = Shape {
        leaves,
        items,
        heads,
        values,
        lanes,
        soft,
        hard,
        merge_sum,
        salt: u64::MAX,
    };
    fault_number(&shape) == want
}

#[test]
fn checks_each_range(rt: HostRuntime) {
    for row in &ROWS {
        assert!(rt; has_its_fault(row), "at {row:?}");
    }
}

#[test]
fn the_standard_shape_has_its_words(rt: HostRuntime) {
    assert_eq!(rt; Shape::standard().word_count(), 2_234_372);
}

#[test]
fn a_fault_of_a_shape_is_no_want_of_memory(rt: HostRuntime) {
    assert!(rt; MakeFault::Shape(ShapeFault::Leaves) != MakeFault::NoMemory);
}
