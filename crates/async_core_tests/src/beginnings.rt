// Cores over two remotes with one setting.
use ann_key::{Bytes, NoMemory};
use kit_async_core::KitCore;
use kit_async_model::{About, Fact, Facts, Setup};
use kit_serve::kit::{Lines, Values};
use std::alloc::Global;

fn begun(alloc: Global, about: Option<About>) -> Result<KitCore, NoMemory> {
    let mut settings = Vec::new(alloc);
    settings.push(Bytes::copy(alloc, b"directory")?)?;
    let settings = Values::new(settings);
    KitCore::new(
        alloc,
        Setup {
            kept: false,
            settings,
            remotes: 2,
            about,
        },
    )
}

// Their cost, and the directory as the one fact.
fn known(alloc: Global) -> Result<About, NoMemory> {
    let mut cost = Vec::new(alloc);
    cost.push(Bytes::copy(alloc, b"COST 100")?)?;
    let mut facts = Vec::new(alloc);
    facts.push(Fact::Setting {
        name: Bytes::copy(alloc, b"directory")?,
        number: 0,
    })?;
    Ok(About {
        configs: Lines::new(Vec::new(alloc)),
        cost: Lines::new(cost),
        availability: Lines::new(Vec::new(alloc)),
        facts: Facts::new(facts),
    })
}

/// Nothing is told of the remotes.
pub(crate) fn silent(alloc: Global) -> Result<KitCore, NoMemory> {
    begun(alloc, None)
}

/// Their cost and their directory are told.
pub(crate) fn told(alloc: Global) -> Result<KitCore, NoMemory> {
    let about = known(alloc)?;
    begun(alloc, Some(about))
}
