// What holds of every shard.
ghost use Rattle.ox_machine.specs.Laws.{IsMachine};
ghost use Rattle.ox_meaning.specs.Shard.{shard_meaning};

/// A shard keeps the laws of machines.
pub fn law_shard_is_machine()
    ensures { IsMachine shard_meaning }
{}
