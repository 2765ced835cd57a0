ghost use Rattle.std.specs.Prelude.{IfOk};
ghost use Rattle.map.specs.Blank.{Blank};

use super::map::Map;
use std::alloc::{AllocError, Global};

impl Map {
    /// Memory for the largest map: 512 stations, and less than 1,024 nodes. It holds no station and no node.
    pub fn new(heap: Global) -> Result<Map, AllocError>
        ensures { IfOk result Blank }
    {
        let nodes = Vec::with_capacity(heap, 1024)?;
        let children = Vec::with_capacity(heap, 1024)?;
        let place = Vec::with_capacity(heap, 512)?;
        Ok(Map {
            nodes,
            children,
            place,
        })
    }
}
