// What a tile's grid is: the contract here is a theorem about every size, and no body does anything.
ghost use Rattle.tile.specs.Theorems.{JoinsNeighbours};

fn pairs_join_neighbours()
    ensures { JoinsNeighbours }
{}
