//! Laws of what moves a call on.
ghost use Rattle.rx_progress.specs.Moving.{MovesHeld, MovesInWorld, MovesOnce};

/// Where the lowest piece that an end doesn't know to be there comes to the other end, however late and however often,
/// and that end has read all that stands without a gap, then it has one packet more without a gap, or it was done with
/// more than the first end knows. Whether it knew the call or not, and whatever else was lost, repeated and reordered.
/// Between two legal ends of a connection, with a network that invents nothing on it and a server that starts none of
/// its calls while it has a record (`once`); where the server forgot no record of it, or where nothing that comes is
/// old (`held`); and of each connection of each client of a world (`world`).
pub fn lowest_piece_moves()
    ensures once { MovesOnce }
    ensures held { MovesHeld }
    ensures world { MovesInWorld }
{}
