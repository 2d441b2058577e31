//! The axes of a small document, its string values, and lists of rows.
use doc_model::{
    Axes, Axis, NodeTest, Plain, Tree, VecGrow, build_worked, collect, merge_into, string_value,
};
use std::alloc::Global;
use text_base::{NoMemory, Seq};

/// The rows on an axis, and how many they are counted to be.
fn list<S: Axes>(
    alloc: Global,
    tree: &S,
    x: u32,
    axis: Axis,
) -> Result<(Vec<u32>, usize), NoMemory> {
    let mut out = Vec::new(alloc);
    if x >= tree.len() {
        return Ok((out, 0));
    }
    tree.axis_into(x, axis, &NodeTest::Node, &mut out)?;
    let count = tree.axis_count(x, axis, &NodeTest::Node);
    Ok((out, count as usize))
}

/// The first row on an axis, where one is there.
fn first<S: Axes>(tree: &S, x: u32, axis: Axis) -> Option<u32> {
    if x < tree.len() && tree.axis_any(x, axis, &NodeTest::Node) {
        return tree.axis_first(x, axis, &NodeTest::Node);
    }
    None
}

#[test]
fn finds_the_nearest_row(rt: HostRuntime) {
    let tree = Plain::new(build_worked(VecGrow::new(rt.alloc())).expect(&rt, "memory"));
    for (x, axis, want) in [
        (6, Axis::Ancestor, Some(5)),
        (6, Axis::Preceding, Some(4)),
        (0, Axis::OwnSelf, Some(0)),
        (1, Axis::Child, Some(3)),
        (5, Axis::PrecedingSibling, Some(4)),
        (0, Axis::Ancestor, None),
        (3, Axis::Child, None),
        (5, Axis::Following, None),
    ] {
        assert_eq!(rt; first(&tree, x, axis), want, "{axis:?} of {x}");
    }
}

#[test]
fn lists_axes(rt: HostRuntime) {
    let tree = Plain::new(build_worked(VecGrow::new(rt.alloc())).expect(&rt, "memory"));
    for (x, axis, want) in [
        (1, Axis::Child, "[3, 4, 5]"),
        (0, Axis::Descendant, "[1, 3, 4, 5, 6]"),
        (6, Axis::Parent, "[5]"),
        (6, Axis::Ancestor, "[5, 1, 0]"),
        (3, Axis::FollowingSibling, "[4, 5]"),
        (5, Axis::PrecedingSibling, "[4, 3]"),
        (2, Axis::Following, "[3, 4, 5, 6]"),
        (6, Axis::Preceding, "[4, 3]"),
        (1, Axis::Attribute, "[2]"),
        (1, Axis::Namespace, "[]"),
        (2, Axis::OwnSelf, "[2]"),
        (5, Axis::DescendantOrSelf, "[5, 6]"),
        (2, Axis::AncestorOrSelf, "[2, 1, 0]"),
    ] {
        let (rows, count) = list(rt.alloc(), &tree, x, axis).expect(&rt, "memory");
        assert_eq!(rt;
            format!(in rt.alloc(); "{rows:?}")
                .expect(&rt, "memory")
                .as_str(),
            want,
            "{axis:?} of {x}"
        );
        assert_eq!(rt; count, rows.len(), "{axis:?} of {x}");
    }
}

#[test]
fn joins_texts_and_rows(rt: HostRuntime) {
    let tree = build_worked(VecGrow::new(rt.alloc())).expect(&rt, "memory");
    if 1 < tree.len() {
        assert_eq!(rt;
            string_value(rt.alloc(), &tree, 1)
                .expect(&rt, "memory")
                .as_str(),
            "abz"
        );
    }
    let mut out = Vec::new(rt.alloc());
    merge_into(&[1, 4], &[2, 4, 6], &mut out).expect(&rt, "memory");
    assert_eq!(rt; out.as_slice(), &[1, 2, 4, 6][..]);
    let lists = [
        row_list(rt.alloc(), &[5, 6]).expect(&rt, "memory"),
        row_list(rt.alloc(), &[1, 6]).expect(&rt, "memory"),
    ];
    assert_eq!(rt;
        collect(rt.alloc(), &lists).expect(&rt, "memory").as_slice(),
        &[1, 5, 6][..]
    );
}

fn row_list(alloc: Global, rows: &[u32]) -> Result<Seq<u32>, NoMemory> {
    Ok(Seq::from_vec(Vec::from_slice(alloc, rows)?))
}
