ghost use Rattle.std.specs.Prelude.{◌≡◌, [], length};

use reachability::Rows;
use std::alloc::Global;
use std::process::Abort;
use supertypes::{Search, least_rings};

type Lists = &'static [&'static [u32]];

const DIAMOND: Lists = &[&[1, 2], &[3], &[3], &[]];

/// A graph, and the least ring of each class.
const RINGS: &[(Lists, &[Option<u32>])] = &[
    (&[], &[]),
    (&[&[]], &[None]),
    (&[&[0]], &[Some(0)]),
    (&[&[1], &[2], &[]], &[None, None, None]),
    (DIAMOND, &[None, None, None, None]),
    (&[&[1], &[2], &[0]], &[Some(0), Some(0), Some(0)]),
    // a chain that ends in a ring
    (&[&[1], &[2], &[1]], &[Some(1), Some(1), Some(1)]),
    // a ring leads to a lesser one, by a class on neither
    (
        &[&[2], &[], &[3], &[2], &[5, 0], &[4]],
        &[Some(2), None, Some(2), Some(2), Some(2), Some(2)],
    ),
    // a ring leads to a greater one
    (
        &[&[1], &[0, 2], &[3], &[2]],
        &[Some(0), Some(0), Some(2), Some(2)],
    ),
    // two ways back make one ring
    (
        &[&[1], &[2], &[3, 0], &[1]],
        &[Some(0), Some(0), Some(0), Some(0)],
    ),
    // a class that is its own supertype, behind another edge
    (&[&[1], &[2, 1], &[]], &[Some(1), Some(1), None]),
    // of two ways the second one leads back
    (&[&[1, 2], &[], &[0]], &[Some(0), None, Some(0)]),
    // numbers beyond the graph stand for no class
    (&[&[7], &[0, 2]], &[None, None]),
];

/// A graph, where the walk starts, what is sought, and what is found.
const WALKS: &[(Lists, u32, &[u32], Option<u32>)] = &[
    (DIAMOND, 0, &[], None),
    (DIAMOND, 0, &[0, 3], Some(0)),
    (DIAMOND, 0, &[2], Some(2)),
    (DIAMOND, 0, &[2, 3], Some(3)),
    (DIAMOND, 0, &[3, 1, 2], Some(1)),
    (DIAMOND, 1, &[2, 0], None),
    (DIAMOND, 4, &[4], None),
    // the walk of the first supertype is gone to its end before the second one
    (&[&[2, 1], &[], &[3], &[]], 0, &[1, 3], Some(3)),
    (&[&[9, 1], &[]], 0, &[9], None),
    (&[&[9, 1], &[]], 0, &[9, 1], Some(1)),
];

/// A graph, some classes, and those that lie above some of them.
const ABOVE: &[(Lists, &[u32], &[u32])] = &[
    (DIAMOND, &[], &[]),
    (DIAMOND, &[0], &[1, 2, 3]),
    (DIAMOND, &[1, 2], &[3]),
    (DIAMOND, &[3], &[]),
    (DIAMOND, &[1, 0], &[1, 2, 3]),
    (DIAMOND, &[4], &[]),
    (&[&[1], &[0]], &[0], &[0, 1]),
    (&[&[9, 1], &[]], &[0], &[1]),
];

fn graph_of(rt: &impl Abort, alloc: Global, lists: &[&[u32]]) -> Rows {
    let mut graph = Rows::new(alloc);
    for list in lists {
        graph.push(list).expect(rt, "memory");
    }
    graph
}

#[test]
fn least_rings_are_found(rt: HostRuntime) {
    for (lists, wanted) in RINGS {
        let graph = graph_of(&rt, rt.alloc(), lists);
        assert!(rt; graph.len() < 100);
        let rings = least_rings(rt.alloc(), &graph).expect(&rt, "memory");
        assert!(rt; rings.as_slice() == *wanted);
    }
}

#[test]
fn walks_find_the_first(rt: HostRuntime) {
    for (lists, start, sought, wanted) in WALKS {
        let graph = graph_of(&rt, rt.alloc(), lists);
        let mut search = Search::new(rt.alloc(), graph.len()).expect(&rt, "memory");
        let found = search.first(&graph, *start, |class| sought.contains(&class));
        assert!(rt; found == *wanted);
        let again = search.first(&graph, *start, |class| sought.contains(&class));
        assert!(rt; again == *wanted);
    }
}

/// Gathers what lies above some of the classes, compares it, and forgets it.
fn gathers(rt: &impl Abort, search: &mut Search, graph: &Rows, classes: &[u32], wanted: &[u32])
    requires room { length graph.now ≡ search.old.classes }
    requires rested { search.old.list ≡ [] }
    ensures { search.new ≡ search.old }
{
    search.gather(graph, classes);
    assert!(rt; search.gathered().len() == wanted.len());
    for class in wanted {
        assert!(rt; search.has(*class));
    }
    search.forget();
}

#[test]
fn what_lies_above_is_gathered(rt: HostRuntime) {
    for (lists, classes, wanted) in ABOVE {
        let graph = graph_of(&rt, rt.alloc(), lists);
        let mut search = Search::new(rt.alloc(), graph.len()).expect(&rt, "memory");
        gathers(&rt, &mut search, &graph, classes, wanted);
        gathers(&rt, &mut search, &graph, classes, wanted);
    }
}
