//! Each call of a network, on three vertices with an edge from 0 to 1 and one from 1 to 2.

ghost use Rattle.graph_store.specs.Edges.{IsWeight};

use apsp_io::{MemorySink, OpenGate};
use graph_store::Star;
use network_replies::{Executor, Network, NoBlocks};
use std::alloc::Global;
use std::marker::Sync;
use std::test::Fail;
use std::thread::Threads;

/// Gives the edge from u to v this weight.
fn put_edge<R: Threads + Sync>(
    rt: &R,
    network: &mut Network,
    u: u32,
    v: u32,
    weight: u32,
) -> Result<(), Fail>
    requires { IsWeight weight }
{
    let n = network.vertices();
    if u >= n || v >= n || u == v || network.number() >= 1 << 40 {
        return Err(Fail::from("no such edge"));
    }
    let executor = Executor::new(rt, 1, &OpenGate, &NoBlocks);
    network.put_edge(&executor, u, v, Some(weight))?;
    Ok(())
}

/// Two updates, each of which gives one edge.
fn two_edges<R: Threads + Sync>(rt: &R, alloc: Global) -> Result<Network, Fail> {
    let mut network = Network::new(alloc, 3, false)?;
    put_edge(rt, &mut network, 0, 1, 4)?;
    put_edge(rt, &mut network, 1, 2, 3)?;
    Ok(network)
}

/// Takes all edges at a vertex away.
fn clear<R: Threads + Sync>(
    rt: &R,
    alloc: Global,
    network: &mut Network,
    v: u32,
) -> Result<(), Fail> {
    if network.vertices() != 3 || network.number() >= 1 << 40 {
        return Err(Fail::from("no such update"));
    }
    let star = Star::new(alloc, 3, v)?;
    let executor = Executor::new(rt, 1, &OpenGate, &NoBlocks);
    network.apply(&executor, &star)?;
    Ok(())
}

/// The reply to `dist`.
fn dist(alloc: Global, network: &Network, x: u32, y: u32) -> Result<String, Fail> {
    let n = network.vertices();
    if x >= n || y >= n || network.is_spent() {
        return Err(Fail::from("no such question"));
    }
    let mut text = String::new(alloc);
    network.put_dist(&mut text, x, y)?;
    Ok(text)
}

/// The reply to `row`.
fn row(alloc: Global, network: &Network, x: u32) -> Result<String, Fail> {
    if x >= network.vertices() || network.is_spent() {
        return Err(Fail::from("no such question"));
    }
    let mut text = String::new(alloc);
    network.put_row(&mut text, x)?;
    Ok(text)
}

/// The reply to `path`.
fn path(alloc: Global, network: &Network, x: u32, y: u32) -> Result<String, Fail> {
    let n = network.vertices();
    if x >= n || y >= n || network.is_spent() {
        return Err(Fail::from("no such question"));
    }
    let mut text = String::new(alloc);
    network.put_path(&mut text, x, y)?;
    Ok(text)
}

/// The reply to `stats`.
fn stats(alloc: Global, network: &Network) -> Result<String, Fail> {
    if network.is_spent() {
        return Err(Fail::from("no such question"));
    }
    let mut text = String::new(alloc);
    network.put_stats(&mut text)?;
    Ok(text)
}

/// The reply to `age` with the path of two vertices.
fn age(alloc: Global, network: &Network, x: u32, y: u32) -> Result<String, Fail> {
    let n = network.vertices();
    if x >= n || y >= n || network.is_spent() {
        return Err(Fail::from("no such question"));
    }
    let mut text = String::new(alloc);
    network.put_age(&mut text, &[x, y])?;
    Ok(text)
}

/// The certificate.
fn certificate(alloc: Global, network: &mut Network) -> Result<MemorySink, Fail> {
    if network.is_spent() || network.number() >= 1 << 40 {
        return Err(Fail::from("no such question"));
    }
    let mut sink = MemorySink::new(alloc, Vec::new(alloc));
    network.give_certificate(&mut sink)?;
    Ok(sink)
}

/// The reply to `ecc`.
fn ecc(alloc: Global, network: &mut Network, x: u32) -> Result<String, Fail> {
    if x >= network.vertices() || network.is_spent() {
        return Err(Fail::from("no such question"));
    }
    let mut text = String::new(alloc);
    network.put_ecc(&mut text, x)?;
    Ok(text)
}

/// The reply to `report`.
fn report<R: Threads + Sync>(rt: &R, alloc: Global, network: &mut Network) -> Result<String, Fail> {
    if network.is_spent() {
        return Err(Fail::from("no such question"));
    }
    let executor = Executor::new(rt, 1, &OpenGate, &NoBlocks);
    let mut text = String::new(alloc);
    network.put_report(&executor, &mut text)?;
    Ok(text)
}

/// The reply to `through`.
fn through<R: Threads + Sync>(
    rt: &R,
    alloc: Global,
    network: &mut Network,
    v: u32,
) -> Result<String, Fail> {
    if v >= network.vertices() || network.is_spent() {
        return Err(Fail::from("no such question"));
    }
    let executor = Executor::new(rt, 1, &OpenGate, &NoBlocks);
    let mut text = String::new(alloc);
    network.put_through(&executor, &mut text, v)?;
    Ok(text)
}

/// One edge on two vertices.
fn one_edge<R: Threads + Sync>(rt: &R, alloc: Global) -> Result<Network, Fail> {
    let mut network = Network::new(alloc, 2, false)?;
    put_edge(rt, &mut network, 0, 1, 5)?;
    Ok(network)
}

/// Two vertices more.
fn grow_to_four(network: &mut Network) -> Result<(), Fail> {
    if network.vertices() >= 4 || network.number() >= 1 << 40 {
        return Err(Fail::from("no such grow"));
    }
    network.grow(4)?;
    Ok(())
}

#[test]
fn a_distance_is_that_of_the_least_walk(rt: HostRuntime) -> Result<(), Fail> {
    let network = two_edges(&rt, rt.alloc())?;
    let text = dist(rt.alloc(), &network, 0, 2)?;
    assert_eq!(rt; text.as_str(), "dist 0 2 7\n");
    Ok(())
}

#[test]
fn a_row_has_the_distance_to_each_vertex(rt: HostRuntime) -> Result<(), Fail> {
    let network = two_edges(&rt, rt.alloc())?;
    let text = row(rt.alloc(), &network, 1)?;
    assert_eq!(rt; text.as_str(), "row 1 none 0 3\n");
    Ok(())
}

#[test]
fn a_path_is_the_least_walk(rt: HostRuntime) -> Result<(), Fail> {
    let network = two_edges(&rt, rt.alloc())?;
    let text = path(rt.alloc(), &network, 0, 2)?;
    assert_eq!(rt; text.as_str(), "path 0 2 7 walk 0 1 2\n");
    Ok(())
}

/// The second update forgets the path 0 1 and forms it once more, with 1 2 and 0 1 2.
#[test]
fn the_counts_are_those_of_both_updates(rt: HostRuntime) -> Result<(), Fail> {
    let network = two_edges(&rt, rt.alloc())?;
    let text = stats(rt.alloc(), &network)?;
    assert_eq!(rt;
        text.as_str(),
        "stats updates 2 steps 2 paths 3 historical 3 formed 3 removed 1\n"
    );
    Ok(())
}

#[test]
fn a_path_is_as_old_as_its_latest_step(rt: HostRuntime) -> Result<(), Fail> {
    let network = two_edges(&rt, rt.alloc())?;
    let text = age(rt.alloc(), &network, 0, 1)?;
    assert_eq!(rt; text.as_str(), "age 0 1 birth 2\n");
    Ok(())
}

#[test]
fn a_star_replaces_all_edges_at_its_vertex(rt: HostRuntime) -> Result<(), Fail> {
    let mut network = two_edges(&rt, rt.alloc())?;
    clear(&rt, rt.alloc(), &mut network, 1)?;
    let text = dist(rt.alloc(), &network, 0, 1)?;
    assert_eq!(rt; text.as_str(), "dist 0 1 none\n");
    Ok(())
}

#[test]
fn a_certificate_has_edges_and_pairs(rt: HostRuntime) -> Result<(), Fail> {
    let mut network = two_edges(&rt, rt.alloc())?;
    let sink = certificate(rt.alloc(), &mut network)?;
    assert_eq!(rt;
        sink.held(),
        b"apsp certificate 2\nnumber 2\nvertices 3\nedges 2\n0 1:4\n1 2:3\npairs 3\n0 1:4:1:1 2:7:2:1\n1 2:3:1:2\nend\n".as_slice()
    );
    Ok(())
}

#[test]
fn a_vertex_reaches_so_far_and_so_many(rt: HostRuntime) -> Result<(), Fail> {
    let mut network = two_edges(&rt, rt.alloc())?;
    let first = ecc(rt.alloc(), &mut network, 0)?;
    assert_eq!(rt; first.as_str(), "ecc 0 far 7 reach 3\n");
    let last = ecc(rt.alloc(), &mut network, 2)?;
    assert_eq!(rt; last.as_str(), "ecc 2 far 0 reach 1\n");
    Ok(())
}

#[test]
fn a_report_has_the_vertices_of_the_centre(rt: HostRuntime) -> Result<(), Fail> {
    let mut network = two_edges(&rt, rt.alloc())?;
    let text = report(&rt, rt.alloc(), &mut network)?;
    assert_eq!(rt; text.as_str(), "report diameter 7 radius 7 centre 0\n");
    Ok(())
}

#[test]
fn only_the_walk_over_both_edges_passes_a_vertex(rt: HostRuntime) -> Result<(), Fail> {
    let mut network = two_edges(&rt, rt.alloc())?;
    let passed = through(&rt, rt.alloc(), &mut network, 1)?;
    assert_eq!(rt; passed.as_str(), "through 1 pairs 1\n");
    let end = through(&rt, rt.alloc(), &mut network, 2)?;
    assert_eq!(rt; end.as_str(), "through 2 pairs 0\n");
    Ok(())
}

/// The grow is an update of one step, which forms and removes nothing.
#[test]
fn a_grow_adds_vertices_without_edges(rt: HostRuntime) -> Result<(), Fail> {
    let mut network = one_edge(&rt, rt.alloc())?;
    grow_to_four(&mut network)?;
    let distances = row(rt.alloc(), &network, 0)?;
    assert_eq!(rt; distances.as_str(), "row 0 0 5 none none\n");
    let counts = stats(rt.alloc(), &network)?;
    assert_eq!(rt;
        counts.as_str(),
        "stats updates 2 steps 2 paths 1 historical 1 formed 0 removed 0\n"
    );
    put_edge(&rt, &mut network, 1, 3, 2)?;
    let walk = path(rt.alloc(), &network, 0, 3)?;
    assert_eq!(rt; walk.as_str(), "path 0 3 7 walk 0 1 3\n");
    Ok(())
}

/// The room for a version is of two vertices before the grow, and of four behind it.
#[test]
fn reports_go_on_behind_a_grow(rt: HostRuntime) -> Result<(), Fail> {
    let mut network = one_edge(&rt, rt.alloc())?;
    let before = report(&rt, rt.alloc(), &mut network)?;
    assert_eq!(rt; before.as_str(), "report diameter 5 radius 5 centre 0\n");
    grow_to_four(&mut network)?;
    let after = report(&rt, rt.alloc(), &mut network)?;
    assert_eq!(rt; after.as_str(), "report diameter 5 radius none\n");
    Ok(())
}
