//! Tests of the reader by lines.

ghost use Rattle.std.specs.Prelude.{◌≡◌, ◌≤◌, false, true};

use super::*;
use std::test::Fail;

fn context(vertices: u32) -> Context
    ensures { result ≡ record {
      vertices = vertices;
      live = false;
      inside = false;
      updates = 0;
      asks = 0;
      no_age = false;
      no_grow = false;
    } }
{
    Context {
        vertices,
        live: false,
        inside: false,
        updates: 0,
        asks: 0,
        no_age: false,
        no_grow: false,
    }
}

/// The code and the place of a refusal, or the numbers of an accepted line.
fn answer(alloc: Global, vertices: u32, bytes: &[u8]) -> Result<(u32, u32), [u32; 3]>
    requires { vertices ≤ MOST_VERTICES }
{
    answer_at(alloc, &context(vertices), bytes)
}

fn answer_at(alloc: Global, context: &Context, bytes: &[u8]) -> Result<(u32, u32), [u32; 3]>
    requires { context.now.vertices ≤ MOST_VERTICES }
{
    match read_line(alloc, bytes, context) {
        Err(LineError::Refused { code, place }) => Ok((code, place)),
        Err(LineError::Memory) => Ok((0, 0)),
        Ok(line) => Err(numbers(&line)),
    }
}

fn numbers(line: &Line) -> [u32; 3] {
    match line {
        Line::Nothing | Line::Stats | Line::Cert | Line::Block | Line::End | Line::Report => {
            [0, 0, 0]
        }
        Line::Vertices(n) | Line::Grow(n) => [*n, 0, 0],
        Line::Star(star) => [star.vertex(), star.vertices(), 0],
        Line::Edge { u, v, w } => [*u, *v, *w],
        Line::Cut { u, v } => [*u, *v, 0],
        Line::Dist { x, y } | Line::Path { x, y } => [*x, *y, 0],
        Line::Row { x } | Line::Ecc { x } => [*x, 0, 0],
        Line::Through { v } => [*v, 0, 0],
        Line::Age(list) => [list.items().len().min(9) as u32, 0, 0],
        Line::Ask { x, y, since } => [*x, *y, *since],
    }
}

#[test]
fn refused_lines(rt: HostRuntime) {
    for (vertices, line, wanted) in [
        (0, "dist 0 1", (1, 1)),
        (2, "vertices 2", (2, 1)),
        (3, "foo", (3, 1)),
        (2, "\0", (3, 1)),
        (3, "Cert", (3, 1)),
        (0, "cert", (1, 1)),
        (3, "cert 0", (4, 2)),
        (0, "vertices", (4, 2)),
        (0, "vertices 2 2", (4, 3)),
        (3, "dist 0", (4, 3)),
        (2, "dist 0 1 2", (4, 4)),
        (2, "star", (4, 2)),
        (3, "star 0 1:2", (4, 3)),
        (2, "star 0 out 1::5", (4, 4)),
        (2, "star 0 in 1:1 in", (4, 5)),
        (2, "age", (4, 2)),
        (3, "star 0 out 1:x", (5, 4)),
        (3, "star 0 out 9:x", (5, 4)),
        (2, "star 0 out :5", (5, 4)),
        (2, "dist 00 1", (5, 2)),
        (2, "dist 99999999999999999999 0", (5, 2)),
        (2, "dist 9999999999999999999 0", (6, 2)),
        (0, "vertices 0", (6, 2)),
        (0, "vertices 513", (6, 2)),
        (3, "path 0 3", (6, 3)),
        (3, "star 0 in 3:0", (6, 4)),
        (3, "edge 1 1 2", (7, 3)),
        (3, "cut 2 2", (7, 3)),
        (3, "star 0 in 0:0", (7, 4)),
        (3, "star 0 out 1:5 1:6", (8, 5)),
        (3, "star 0 out 1:5 1:0", (8, 5)),
        (2, "star 0 out 1:4294967296", (9, 4)),
        (2, "edge 0 1 4294967296", (9, 4)),
        (2, "block", (11, 1)),
        (0, "ask 0 1", (11, 1)),
        (3, "end 0 0", (11, 1)),
        (0, "grow 2", (1, 1)),
        (0, "ecc 0", (1, 1)),
        (0, "report", (1, 1)),
        (0, "through 0", (1, 1)),
        (3, "grow", (4, 2)),
        (3, "grow 4 4", (4, 3)),
        (3, "ecc", (4, 2)),
        (3, "report 0", (4, 2)),
        (3, "through 0 1", (4, 3)),
        (3, "grow 04", (5, 2)),
        (3, "grow 0", (6, 2)),
        (512, "grow 513", (6, 2)),
        (3, "ecc 3", (6, 2)),
        (3, "through 3", (6, 2)),
        (3, "grow 3", (15, 2)),
        (3, "grow 1", (15, 2)),
    ] {
        if vertices <= MOST_VERTICES {
            let given = answer(rt.alloc(), vertices, line.as_bytes());
            assert_eq!(rt; given, Ok(wanted), "{line}");
        }
    }
}

#[test]
fn accepted_lines(rt: HostRuntime) {
    for (vertices, line, wanted) in [
        (0, "# roads", [0, 0, 0]),
        (0, " \t\r", [0, 0, 0]),
        (0, "vertices 3\r", [3, 0, 0]),
        (0, "vertices 512", [512, 0, 0]),
        (3, "\tedge  0 1 5", [0, 1, 5]),
        (3, "cut 0 1", [0, 1, 0]),
        (3, "row 2", [2, 0, 0]),
        (3, "dist 0 0", [0, 0, 0]),
        (3, "path 2 1", [2, 1, 0]),
        (3, "stats", [0, 0, 0]),
        (1, " cert ", [0, 0, 0]),
        (3, "age 0 0", [2, 0, 0]),
        (3, "star 1", [1, 3, 0]),
        (2, "star 0 out 1:4294967295", [0, 2, 0]),
        (2, "star 0 out 1:0", [0, 2, 0]),
        (3, "grow 4", [4, 0, 0]),
        (3, "grow 512", [512, 0, 0]),
        (3, "ecc 2", [2, 0, 0]),
        (3, "report", [0, 0, 0]),
        (3, "through 1", [1, 0, 0]),
    ] {
        if vertices <= MOST_VERTICES {
            let given = answer(rt.alloc(), vertices, line.as_bytes());
            assert_eq!(rt; given, Err(wanted), "{line}");
        }
    }
}

/// A context in a mode with blocks, on three vertices.
fn live(inside: bool, updates: u32, asks: u32) -> Context
    ensures { result ≡ record {
      vertices = 3;
      live = true;
      inside = inside;
      updates = updates;
      asks = asks;
      no_age = false;
      no_grow = false;
    } }
{
    Context {
        vertices: 3,
        live: true,
        inside,
        updates,
        asks,
        no_age: false,
        no_grow: false,
    }
}

#[test]
fn lines_of_blocks(rt: HostRuntime) {
    let outside = live(false, 0, 0);
    let begun = live(true, 2, 1);
    let full = live(true, MOST_IN_BLOCK, MOST_IN_BLOCK);
    for (context, line, wanted) in [
        (outside, "block", Err([0, 0, 0])),
        (outside, "block 1", Ok((4, 2))),
        (outside, "ask 0 1", Ok((3, 1))),
        (outside, "end", Ok((3, 1))),
        (outside, "end 0", Ok((3, 1))),
        (outside, "vertices 3", Ok((2, 1))),
        (begun, "ask 0 1", Err([0, 1, 0])),
        (begun, "ask 2 1 since 2", Err([2, 1, 2])),
        (begun, "ask 0 1 since 3", Ok((14, 5))),
        (begun, "ask 0 1 since 9999999999999999999", Ok((14, 5))),
        (begun, "ask 0 1 since x", Ok((5, 5))),
        (begun, "ask 0 3 since 3", Ok((6, 3))),
        (begun, "ask 0 3 until 3", Ok((4, 4))),
        (begun, "ask 0 x since 1 1", Ok((4, 6))),
        (begun, "ask", Ok((4, 2))),
        (begun, "ask 0", Ok((4, 3))),
        (begun, "ask 0 1 since", Ok((4, 5))),
        (begun, "end", Err([0, 0, 0])),
        (begun, "end 0", Ok((4, 2))),
        (begun, "# roads", Err([0, 0, 0])),
        (begun, "star 1", Err([1, 3, 0])),
        (begun, "edge 0 1 5", Err([0, 1, 5])),
        (begun, "cut 0 1", Err([0, 1, 0])),
        (begun, "dist 0 9", Ok((13, 1))),
        (begun, "path 0", Ok((13, 1))),
        (begun, "block", Ok((13, 1))),
        (begun, "vertices 3", Ok((13, 1))),
        (begun, "cert", Ok((13, 1))),
        (begun, "grow 3", Ok((13, 1))),
        (begun, "ecc 0", Ok((13, 1))),
        (begun, "report", Ok((13, 1))),
        (begun, "through 0", Ok((13, 1))),
        (full, "ask 0 1 since 65536", Ok((12, 1))),
        (full, "grow 4", Ok((13, 1))),
        (full, "star 9", Ok((12, 1))),
        (full, "cut 0", Ok((12, 1))),
        (full, "dist 0 1", Ok((13, 1))),
        (full, "end", Err([0, 0, 0])),
    ] {
        if context.vertices <= MOST_VERTICES {
            let given = answer_at(rt.alloc(), &context, line.as_bytes());
            assert_eq!(rt; given, wanted, "{line}");
        }
    }
}

/// A context in a session that does not serve `grow`, and may serve `age`.
fn without_grow(vertices: u32, inside: bool, no_age: bool) -> Context
    ensures { result ≡ record {
      vertices = vertices;
      live = inside;
      inside = inside;
      updates = 0;
      asks = 0;
      no_age = no_age;
      no_grow = true;
    } }
{
    Context {
        vertices,
        live: inside,
        inside,
        updates: 0,
        asks: 0,
        no_age,
        no_grow: true,
    }
}

#[test]
fn commands_not_served_are_refused(rt: HostRuntime) {
    for (context, line, wanted) in [
        (without_grow(3, false, true), "age 0", Ok((16, 1))),
        (without_grow(3, false, true), "grow 2", Ok((16, 1))),
        (without_grow(0, false, true), "age", Ok((16, 1))),
        (without_grow(0, false, true), "grow x", Ok((16, 1))),
        (without_grow(0, false, true), "stats", Ok((1, 1))),
        (without_grow(3, false, true), "stats", Err([0, 0, 0])),
        (without_grow(3, false, false), "age 0", Err([1, 0, 0])),
        (without_grow(3, false, false), "grow 4", Ok((16, 1))),
        (without_grow(3, true, true), "age 0", Ok((16, 1))),
        (without_grow(3, true, true), "grow 4", Ok((16, 1))),
        (without_grow(3, true, true), "cert", Ok((13, 1))),
    ] {
        if context.vertices <= MOST_VERTICES {
            let given = answer_at(rt.alloc(), &context, line.as_bytes());
            assert_eq!(rt; given, wanted, "{line}");
        }
    }
}

#[test]
fn stars_have_their_edges(rt: HostRuntime) -> Result<(), Fail> {
    let line = read_line(rt.alloc(), b"star 1 out 2:3 in 0:4 2:5", &context(3));
    let Ok(Line::Star(star)) = line else {
        return Err(Fail::from("no star"));
    };
    assert_eq!(rt; (star.vertices(), star.vertex()), (3, 1));
    for (u, out, into) in [
        (0u32, None, Some(4)),
        (1, None, None),
        (2, Some(3), Some(5)),
    ] {
        if u < star.vertices() {
            assert_eq!(rt;
                (star.out_weight(u), star.in_weight(u)),
                (out, into),
                "at {u}"
            );
        }
    }
    Ok(())
}

#[test]
fn long_lines_are_refused(rt: HostRuntime) -> Result<(), Fail> {
    for (len, wanted) in [(65537usize, (10, 0)), (65536, (3, 1))] {
        let line = vec![in rt.alloc(); b'x'; len]?;
        assert_eq!(rt; answer(rt.alloc(), 2, &line), Ok(wanted));
    }
    Ok(())
}
