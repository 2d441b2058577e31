//! Documents whose rows lie in an arena.
use arena_tree::ArenaGrow;
use bumpalo::Bump;
use doc_model::{Kind, Tree, build_worked};

#[test]
fn keeps_rows(rt: HostRuntime) {
    let mut arena = Bump::new(rt.alloc());
    let tree = build_worked(ArenaGrow::new(&arena)).expect(&rt, "memory");
    assert_eq!(rt; tree.len(), 7);
    for (i, kind, name, text, parent, end) in [
        (0, Kind::Root, "", "", 0, 7),
        (1, Kind::Element, "p", "", 0, 7),
        (2, Kind::Attribute, "c", "x", 1, 3),
        (3, Kind::Text, "", "ab", 1, 4),
        (4, Kind::Comment, "", "k", 1, 5),
        (5, Kind::Element, "q", "", 1, 7),
        (6, Kind::Text, "", "z", 5, 7),
    ] {
        assert!(rt; i < tree.len());
        assert_eq!(rt; tree.kind(i), kind, "kind of {i}");
        assert_eq!(rt; tree.name(i), name, "name of {i}");
        assert_eq!(rt; tree.text(i), text, "text of {i}");
        assert_eq!(rt; tree.parent(i), parent, "parent of {i}");
        assert_eq!(rt; tree.end(i), end, "end of {i}");
    }
    assert!(rt;
        arena.reset().is_ok(),
        "the tree is gone, and with it all that lay in the arena"
    );
}

#[test]
fn keeps_rows_in_room(rt: HostRuntime) {
    let arena = Bump::new(rt.alloc());
    let grow = ArenaGrow::with_room(&arena, 2).expect(&rt, "room");
    let tree = build_worked(grow).expect(&rt, "memory");
    assert_eq!(rt; tree.len(), 7);
    assert_eq!(rt; tree.text(3), "ab");
}
