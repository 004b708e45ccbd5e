//! The blocks of a netlist.

ghost use Rattle.std.specs.Prelude.{◌≡◌, ◌<◌, length, map, IfOk};
ghost use Rattle.std.specs.List.{All, range_with_len};
ghost use Rattle.loops.specs.Blocks.{AreBlocksOf};
ghost use Rattle.loops.specs.Members.{members as members_of, is_loop as is_loop_of, block_of};

use crate::gate_list::{GateList, empty_lists};
use crate::structure::{Block, Blocks};
use components::{Components, Graph};
use cyc_base::Items;
use netlist::Netlist;
use std::alloc::{AllocError, Global};

/// The gates of each number, by the numbers of the gates.
fn grouped(alloc: Global, homes: &[u32], count: u32) -> Result<Vec<GateList>, AllocError>
    requires within { All (λ number. number < count) homes.now }
    requires size { length homes.now < 4294967296 }
    ensures { IfOk result (λ lists. lists.items ≡ map (members_of homes.now) (range_with_len 0 count)) }
{
    let mut lists = empty_lists(alloc, count)?;
    for (gate, home) in homes.iter().enumerate() {
        lists[*home as usize].push(gate as u32)?;
    }
    Ok(lists)
}

/// Whether the gates of a strongly connected component are a loop: there are two, or the one reads itself.
fn is_loop(graph: &Graph, gates: &[u32]) -> bool
    requires { All (λ gate. gate < length graph.now) gates.now }
    ensures { result ≡ is_loop_of graph.now gates.now }
{
    match gates {
        [] => false,
        [gate] => graph.successors(*gate).contains(gate),
        _ => true,
    }
}

fn blocks_of(alloc: Global, graph: &Graph, lists: Vec<GateList>) -> Result<Vec<Block>, AllocError>
    requires { All (All (λ gate. gate < length graph.now)) lists.items }
    ensures { IfOk result (λ blocks. blocks.items ≡ map (block_of graph.now) lists.items) }
{
    let mut blocks = Vec::with_capacity(alloc, lists.len())?;
    for members in lists {
        let looped = is_loop(graph, members.gates());
        blocks.push(Block {
            gates: members.into_items(),
            looped,
        })?;
    }
    Ok(blocks)
}

/// The blocks of a netlist: gates that reach each other along pins are in one, in flat order, and a block
/// stands after those that it reads. It takes time and memory in proportion to the gates and pins.
pub fn find_blocks(alloc: Global, net: &Netlist) -> Result<Blocks, AllocError>
    ensures { IfOk result (AreBlocksOf net.now) }
{
    let graph = net.gate_graph(alloc)?;
    let components = Components::of(alloc, &graph)?;
    let lists = grouped(alloc, components.home.items(), components.count)?;
    let list = blocks_of(alloc, &graph, lists)?;
    Ok(Blocks {
        list: Items::of(list),
        home: components.home,
    })
}
