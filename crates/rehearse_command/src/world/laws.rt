// Worked rows of the walk, each the contract of a function with nothing to do.
ghost use Rattle.std.specs.Prelude.{◌≡◌, [], false, Some, None};
ghost use Rattle.journal_model.specs.declared.opening.Opening.{Opening};
ghost use Rattle.host_core.specs.declared.event.Event.TheVariants.{Start, Ask};
ghost use Rattle.host_talk.specs.declared.request.request.Request.TheVariants.{Extensions};
ghost use Rattle.pair_world.specs.Rows.{started, heard};
ghost use Rattle.rehearse_command.specs.World.Walks.{bytes_moved, place};
ghost use Rattle.rehearse_command.specs.World.Workers.{next_of};

/// Children are started in the order of their numbers, and asked once their version came.
#[tactic(auto, unfolding(crate::specs::World::Workers::next_of))]
pub fn first_events()
    ensures first { (o : Opening) → next_of o [] 1 ≡ Some (Start 0 false) }
    ensures later { (o : Opening) → next_of o [] 2 ≡ None }
    ensures second { (o : Opening) → next_of o (started o).journal 2 ≡ Some (Start 1 false) }
    ensures silent { (o : Opening) → next_of o (started o).journal 1 ≡ None }
    ensures greeted { (o : Opening) → next_of o (heard o).journal 1 ≡ Some (Ask 1 0 (Extensions false)) }
{}

/// Where moves begin, and how many bytes they bring.
pub fn worked_places()
    ensures first { place 7 1 ≡ 9 }
    ensures round { place 7 4 ≡ 3 }
    ensures far { place 4294967295 9223372036854775807 ≡ 23 }
    ensures few { bytes_moved 66 2 ≡ 2 }
    ensures most { bytes_moved 66 100 ≡ 3 }
{}
