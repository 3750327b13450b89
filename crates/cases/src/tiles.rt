// Calls on page tiles, over the front of one table.
use super::call::Call;
use super::networks;
use super::script::{Line, before_release};
use anyhow::{Context, bail};
use network::Network;
use std::alloc::Global;
use tile::{Pixel, Tile};

// Makes the calls on a new tile, and a release at the end. What is gained counts from the last lay.
pub(crate) fn play(
    rt: &impl Print,
    heap: Global,
    table: &mut [Pixel],
    calls: &[Line],
) -> anyhow::Result<()> {
    let (calls, released) = before_release(calls);
    let mut tile = Tile::new(table);
    let mut gained = 0;
    for line in calls {
        match &line.call {
            Call::Lay {
                width,
                height,
                costs,
            } => match tile.lay(*width, *height, costs) {
                Ok(()) => {
                    gained = 0;
                    println!(rt; "laid {} nodes", tile.node_count())?;
                }
                Err(refusal) => println!(rt; "refused {}", refusal.question())?,
            },
            Call::OfNetwork(call) => networks::make(
                rt,
                heap,
                &mut tile,
                *call,
                &mut gained,
            ).context(format_args!("line {}", line.number))?,
            _ => bail!("line {}: no call on a tile", line.number),
        }
    }
    let table = tile.release();
    if released {
        println!(rt; "released {}", table.len())?;
    }
    Ok(())
}
