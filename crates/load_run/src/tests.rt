use crate::{LoadReport, run_load};
use apsp_io::OpenGate;
use std::test::Fail;

/// The numbers that were drawn and settled by hand.
#[test]
fn two_vertices_have_one_edge_each_way(rt: HostRuntime) -> Result<(), Fail> {
    let alloc = rt.alloc();
    for workers in [1, 64] {
        assert_eq!(rt;
            run_load(&rt, alloc, 2, 1, workers, &OpenGate),
            Ok(LoadReport {
                updates: 4,
                pairs: 2,
                sum: 1791,
                paths: 2,
                historical: 2,
            }),
            "{workers} workers"
        );
    }
    Ok(())
}

/// A vertex alone has no pairs.
#[test]
fn one_vertex_has_no_pairs(rt: HostRuntime) -> Result<(), Fail> {
    assert_eq!(rt;
        run_load(&rt, rt.alloc(), 1, 7, 1, &OpenGate),
        Ok(LoadReport {
            updates: 2,
            pairs: 0,
            sum: 0,
            paths: 0,
            historical: 0,
        })
    );
    Ok(())
}
