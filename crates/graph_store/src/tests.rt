//! Graphs, stars and plans of three vertices.

use crate::{Graph, MakeError, Plan, Star, StarError};
use std::test::Fail;

#[test]
fn numbers_of_vertices(rt: HostRuntime) -> Result<(), Fail> {
    for (n, wanted) in [
        (0, Some(MakeError::Vertices)),
        (1, None),
        (512, None),
        (513, Some(MakeError::Vertices)),
    ] {
        assert_eq!(rt; Graph::new(rt.alloc(), n).err(), wanted, "at {n}");
    }
    assert_eq!(rt; MakeError::Vertices as u32, 1);
    assert_eq!(rt; Star::new(rt.alloc(), 3, 3).err(), Some(StarError::Vertex));
    Ok(())
}

#[test]
fn edges_of_a_star(rt: HostRuntime) -> Result<(), Fail> {
    let mut star = Star::new(rt.alloc(), 3, 1)?;
    for (u, w, wanted) in [
        (3, 5, Some(StarError::Vertex)),
        (1, 0, Some(StarError::SelfEdge)),
        (2, 4294967296, Some(StarError::Weight)),
        (2, 4294967295, None),
        (2, 0, Some(StarError::Repeat)),
        (0, 0, None),
    ] {
        assert_eq!(rt; star.set_out(u, w).err(), wanted, "out {u}:{w}");
        assert_eq!(rt; star.set_in(u, w).err(), wanted, "in {u}:{w}");
    }
    assert_eq!(rt; (star.vertices(), star.vertex()), (3, 1));
    assert_eq!(rt; star.out_weight(2), Some(4294967295));
    assert_eq!(rt; star.in_weight(0), Some(0));
    star.put_out(2, None);
    star.put_out(0, Some(7));
    assert_eq!(rt; (star.out_weight(2), star.out_weight(0)), (None, Some(7)));
    assert_eq!(rt; StarError::Weight as u32, 4);
    Ok(())
}

#[test]
fn stars_of_a_graph(rt: HostRuntime) -> Result<(), Fail> {
    let mut graph = Graph::new(rt.alloc(), 3)?;
    let mut star = Star::new(rt.alloc(), 3, 0)?;
    star.set_out(1, 4)?;
    star.set_out(2, 9)?;
    graph.apply(&star);
    graph.star_into(1, &mut star);
    star.set_out(2, 3)?;
    graph.apply(&star);
    let mut copy = Graph::new(rt.alloc(), 3)?;
    graph.copy_into(&mut copy);
    star.put_out(2, None);
    graph.apply(&star);
    for (u, v, before, after) in [
        (0, 1, Some(4), Some(4)),
        (0, 2, Some(9), Some(9)),
        (1, 2, Some(3), None),
        (1, 1, None, None),
        (2, 0, None, None),
    ] {
        assert_eq!(rt; copy.weight(u, v), before, "before, {u} to {v}");
        assert_eq!(rt; graph.weight(u, v), after, "after, {u} to {v}");
    }
    assert_eq!(rt; graph.vertices(), 3);
    Ok(())
}

#[test]
fn updates_of_a_plan(rt: HostRuntime) -> Result<(), Fail> {
    let graph = Graph::new(rt.alloc(), 3)?;
    let mut plan = Plan::new(rt.alloc(), &graph, 7)?;
    assert_eq!(rt; (plan.lo(), plan.hi()), (7, 7));
    plan.add(Star::new(rt.alloc(), 3, 2)?)?;
    plan.add(Star::new(rt.alloc(), 3, 0)?)?;
    assert_eq!(rt; (plan.lo(), plan.hi()), (7, 9));
    assert_eq!(rt; (plan.star(8).vertex(), plan.star(9).vertex()), (2, 0));
    Ok(())
}
