use super::alternating_bit as parts;
use actions::pair::ChannelPair;
use anyhow::Context;
use composition::parallel::Parallel;
use relabelling::restriction::Restriction;
use std::alloc::Global;
use systems::table::Table;

// Sender, medium and receiver side by side, with their own channels restricted.
pub type Protocol = Restriction<Parallel<Parallel<Table, Table>, Table>>;

// The channels 3 to 10, of prioritised actions.
const INNER: u64 = 2040;

// 180 states.
pub fn protocol(heap: Global) -> anyhow::Result<Protocol> {
    let sender = Table::new(heap, 6, &parts::SENDER)?;
    let medium = Table::new(heap, 5, &parts::MEDIUM)?;
    let receiver = Table::new(heap, 6, &parts::RECEIVER)?;
    let inner = ChannelPair::new(0, INNER).context("no channel pair")?;
    Ok(Restriction::new(
        inner,
        Parallel::new(Parallel::new(sender, medium), receiver),
    ))
}

// Six states.
pub fn service(heap: Global) -> anyhow::Result<Table> {
    Ok(Table::new(heap, 6, &parts::SERVICE)?)
}
