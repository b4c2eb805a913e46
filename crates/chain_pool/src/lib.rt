//! Lists of edges, one for each chain, in one array of nodes that the chains share.
#![tactic(auto)]

mod nodes;
mod pool;

pub use pool::{ChainPool, Full};

#[cfg(test)]
mod tests {
    use super::*;
    use lumos_base::{Edge, Vertex, Weight};
    use std::test::Fail;

    // An edge that is told from others by its weight.
    fn edge(weight: u32) -> Edge {
        Edge {
            source: Vertex(0),
            target: Vertex(1),
            weight: Weight(weight),
        }
    }

    #[test]
    fn chains_share_the_nodes(rt: HostRuntime) -> Result<(), Fail> {
        let Ok(mut pool) = ChainPool::new(rt.alloc(), 3, 2) else {
            panic!(rt; "memory");
        };
        assert_eq!(rt; pool.push(0, edge(1)), Ok(()));
        assert_eq!(rt; pool.push(1, edge(2)), Ok(()));
        assert_eq!(rt; pool.push(0, edge(3)), Ok(()));
        assert_eq!(rt; pool.push(1, edge(4)), Err(Full));
        let mut out = [edge(0); 1];
        assert_eq!(rt; pool.take(0, &mut out), 1);
        assert_eq!(rt; out, [edge(1)]);
        assert_eq!(rt; pool.spare(), 1);
        assert_eq!(rt; pool.push(1, edge(4)), Ok(()));
        assert_eq!(rt; pool.len_of(1), 2);
        let mut out = [edge(0); 2];
        assert_eq!(rt; pool.take(1, &mut out), 2);
        assert_eq!(rt; out, [edge(2), edge(4)]);
        Ok(())
    }
}
